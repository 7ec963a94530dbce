//! Java as an instance of scope graphs: what stands at a scope, what a query asks of it, and which labels edges have.
//!
//! Packages, types and members have their simple name at their scope, and a signature scope the types of a signature
//! once they are known (JLS 6.2, 8.2). Nothing is known here of trees and of the rules that make edges.
#![tactic(auto)]

mod access;
mod datum;
mod java;
pub mod labels;
mod pred;
#[cfg(test)]
mod tests;
mod ty;
mod type_base;
mod type_list;

pub use access::Access;
pub use datum::JavaDatum;
pub use java::Java;
pub use pred::JavaPred;
pub use ty::Ty;
pub use type_base::TypeBase;
pub use type_list::TypeList;
