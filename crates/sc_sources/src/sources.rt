use jv_diag::DiagList;
use jv_tree::{Names, Unit};

/// What the sources of a folder come to.
#[derive(Drop)]
pub enum Sources {
    /// The trees of the prelude's two files and then of the folder's, with the names of their identifiers.
    Trees { names: Names, units: Vec<Unit> },
    /// The faults, one of each file that has one, by the order of the files.
    Faults(DiagList),
}
