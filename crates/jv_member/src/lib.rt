//! The members of types: which a declaration has, what their signatures are, what is wrong with their declarations
//! and with all of them together (JLS 8.3, 8.4, 8.8, 9.3, 9.4).
//!
//! The signature of a member is a rule over replies: it reads the types that are written in it, in order. `specs/Own.antt`
//! says which members a declaration has, `specs/Signatures.antt` what their signatures are, `specs/Declaration.antt` what is wrong
//! with a declaration itself. What is wrong with the members of a type together is a rule too, `specs/Members.antt`: of
//! `specs/Overriding.antt` which methods stand over which others and where methods meet, of `specs/Constructors.antt` which
//! constructor of the superclass is called. No unit is known here: what is read stands on replies alone.
#![tactic(auto)]

mod above;
mod clash;
mod codes;
mod constructors;
mod declaring;
mod diag_lists;
mod groups;
mod inherited;
pub mod laws;
mod meeting;
mod member_decl;
pub mod member_laws;
mod members;
mod of_class;
mod pairs;
mod placed;
mod signature;
mod whole_methods;
mod written_types;

pub use constructors::read_ctor_rule;
pub use declaring::member_diags;
pub use inherited::read_inherited_rule;
pub use member_decl::{MemberDecl, own_members};
pub use members::{check_members, read_members, read_overrides};
pub use signature::{Signature, read_signature, resolve_signature};
