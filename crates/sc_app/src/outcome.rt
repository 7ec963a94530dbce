use jv_diag::{Diag, DiagList};
use jv_instance::Java;
use jv_unit::Folder;
use sc_io::SourceFile;
use sg_core::Core;
use std::alloc::Global;
use std::sync::Arc;

/// What checking the sources of a folder comes to.
#[derive(Drop)]
pub struct Outcome {
    /// The diagnostics of the report, by file, place, code and text, each once.
    pub diags: Vec<Diag>,
    /// How many files there are.
    pub files: u32,
    /// How many types they declare; none where a file has a fault.
    pub types: u32,
    /// The files that were handed in.
    pub sources: Vec<SourceFile>,
    /// Their layout, names and trees; none where a file has a fault.
    pub folder: Option<Arc<Folder, Global>>,
    /// The core of the run of their checkers, which has ended or is stuck; none where a file has a fault.
    pub core: Option<Core<Java, DiagList>>,
}
