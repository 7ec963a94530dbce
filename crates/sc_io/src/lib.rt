//! The outside of the checker: a tree of source files to read, and a sink for what it writes.
//!
//! A tree or a sink over memory tells its whole content, so a caller's contract can name the bytes; one over the
//! real system tells none. Each counts its faults, and a call that fails has raised that count.
#![tactic(auto)]

mod content;
mod cut_sink;
mod dir_tree;
mod fault;
mod file_list;
mod java_path;
mod mem_sink;
mod mem_tree;
mod plain_sink;
mod plain_tree;
mod sink;
mod source_file;
mod source_tree;
mod std_sink;
mod walk;

pub use content::Content;
pub use cut_sink::CutSink;
pub use dir_tree::DirTree;
pub use fault::{SinkFault, TreeFault};
pub use mem_sink::MemSink;
pub use mem_tree::MemTree;
pub use plain_sink::PlainSink;
pub use plain_tree::PlainTree;
pub use sink::Sink;
pub use source_file::SourceFile;
pub use source_tree::SourceTree;
pub use std_sink::StdSink;

#[cfg(test)]
mod tests;
