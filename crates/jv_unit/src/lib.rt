//! The checkers of files and of types: units that follow rules.
//!
//! What each does is a plan (`specs/Plans.antt`), a list of stages that are rules over replies: the unit of a file reads its
//! imports, writes the edges that they give, and comes to their diagnostics, and to those of what its single static imports bring,
//! which it looks up once its rows are closed; the unit of a type reads its header, writes its
//! supertypes and then the signature of each member, and comes to the diagnostics of its header, its declaration, its members and
//! their bodies. What is checked behind the header is a list (`specs/Checks.antt`), done one check after another: a missing reply
//! repeats at most the check that asks for it. All units of a folder share its layout, names and trees (`Folder`). `java_units`
//! makes them: each follows the script of its number (`JavaScript`), so it asks what its rules ask and gives what they give, and
//! no unit is written by hand. The bodies and the initializers of members can be checked by the declaration of their type alone too
//! (`check_body`, `check_init`, `specs/DeclaredBodies.antt`), by the same rules, and so can their signatures (`check_signature`).
#![tactic(auto)]

mod begun_checks;
mod begun_head;
mod begun_type;
mod body_rules;
mod check_rules;
mod decl_paths;
mod declared_body;
mod declared_init;
mod declared_members;
mod declared_signature;
mod file_rules;
mod folder;
mod head_rules;
mod java_script;
pub mod laws;
mod member_places;
mod member_rules;
mod type_progress;
mod type_rules;
mod unit_rules;
mod units;

pub use declared_body::check_body;
pub use declared_init::check_init;
pub use declared_signature::check_signature;
pub use folder::Folder;
pub use java_script::JavaScript;
pub use units::{JavaUnit, java_units};
