//! Tables of types: subtypes, conversions, and the types of operators (JLS 4.10, 5, 15).
//!
//! A type is its base and how many pairs of brackets it has. What is known of a class besides, its supertypes and whether it is
//! an interface or final, is handed in, so nothing here looks at a graph, and nothing takes memory. `specs/Conversion.antt` and
//! `specs/Operators.antt` are the tables.
#![tactic(auto)]

mod assigning;
mod binary_operators;
mod casting;
mod conditionals;
mod kinds;
pub mod laws;
mod promotion;
mod side;
mod unary_operators;

pub use assigning::{assignable, subtype};
pub use binary_operators::binary;
pub use casting::castable;
pub use conditionals::conditional;
pub use kinds::{is_numeric, is_reference, is_type};
pub use promotion::promote;
pub use side::Side;
pub use unary_operators::unary;
