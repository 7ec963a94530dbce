//! Headers of types, and imports of files (JLS 7.5, 8.1, 9.1).
//!
//! The header of a type is a rule over replies: it reads the references of the type in order, and ends with the supertypes and
//! the diagnostics at the references. `specs/Header.antt` says this, `specs/Progress.antt` how far its references were read,
//! `specs/Depends.antt` when a type depends on itself, `specs/RowProgress.antt` how far its row was read for that,
//! `specs/Declaration.antt` what is wrong with a declaration itself, `specs/Imports.antt` which edges the imports of a file give,
//! `specs/ImportsProgress.antt` how far these were read, `specs/StaticImports.antt` what is said of single static imports by the
//! members that they bring, `specs/StaticsProgress.antt` how far those were read, `specs/Circular.antt` what is said of a header that
//! waits. No unit is known here: what is read stands on replies alone.
#![tactic(auto)]

mod begun_dependence;
mod circular;
mod clashes;
mod clauses;
mod declaring;
mod dependence;
mod dependence_progress;
mod file_imports;
mod header;
mod header_progress;
mod imports;
mod imports_progress;
pub mod laws;
mod references;
mod static_imports;
mod statics_progress;

pub use circular::circular_line;
pub use declaring::declared_diags;
pub use dependence::{Dependence, read_depends, resolve_depends};
pub use dependence_progress::DependenceProgress;
pub use file_imports::FileImports;
pub use header::{Header, read_header, resolve_header};
pub use header_progress::HeaderProgress;
pub use imports::{read_imports, read_meanings, resolve_imports};
pub use imports_progress::ImportsProgress;
pub use references::References;
pub use static_imports::read_statics;
pub use statics_progress::StaticsProgress;
