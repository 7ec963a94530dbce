//! The layout of a folder: which scopes there are, in which order, and what each is (JLS 6, 7, 8, 9).
//!
//! `specs/Folder.antt` says what the trees of the files declare, `specs/Scopes.antt` the numbers of scopes,
//! `specs/Readers.antt` what a layout says of a scope, `specs/Skeleton.antt` the graph with which a run begins: each
//! kind of edge, the data, and who holds what, `specs/Titles.antt` the printed names of scopes and types. `layout` collects
//! packages, types and members from the trees, where `is_folder` says that they are not too many; a `Layout` has its
//! readers, `fits` and `title`, and its `opening` is that graph. Which types and members are duplicates is found by keys
//! (`specs/Keys.antt`). Nothing here looks into expressions.
#![tactic(auto)]

mod build;
mod clauses;
mod collect;
mod compare;
mod declarations;
mod edges;
mod fault;
mod firsts;
mod fits;
mod folder_size;
pub mod laws;
mod opening;
mod order;
mod packages;
mod place;
pub mod prelude;
mod readers;
mod rows;
mod tables;
mod titles;
mod type_texts;
pub mod words;

pub use build::layout;
pub use declarations::Declarations;
pub use fault::LayoutFault;
pub use folder_size::is_folder;
pub use order::text_of;
pub use place::Place;
pub use rows::{MemberKind, MemberRow, Modifiers, PackageRow, TypeRow};
pub use tables::Layout;
