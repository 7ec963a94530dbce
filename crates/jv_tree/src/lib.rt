//! Syntax trees of the Java profile, and the numbers of names.
//!
//! The types hold what the grammar of `docs/JAVA-PROFILE.md` derives, with the offset at which each part begins.
//! `tree_of` of `specs/` gives the pure tree of each, which all definitions speak of, and `nodes` makes one node
//! each. `IsShaped` of `specs/` says which trees the grammar has. Whoever walks a tree goes along the spine of an
//! expression in a loop (`Expr::spine`), since a spine is as long as a source. It knows nothing of tokens and of
//! meanings.
#![tactic(auto)]

mod declaration;
mod expression;
pub mod laws;
mod name;
mod names;
pub mod nodes;
mod spine;
mod statement;
mod type_ref;

pub use declaration::{Ctor, Import, Member, Method, Mods, Param, TypeDecl, Unit};
pub use expression::{Expr, ExprKind, Init, Operand, Target};
pub use name::{Ident, Name};
pub use names::{NameId, Names};
pub use spine::{Spine, Step, StepKind};
pub use statement::{Stmt, StmtKind};
pub use type_ref::{Base, TypeRef, Var};
