//! The types of expressions, and what is wrong in the bodies of methods and constructors and in the initializers of fields (JLS
//! 14, 15).
//!
//! A rule is handed the diagnostics so far and gives them back with its own behind them; it reads replies alone. `specs/Site.antt`
//! says what is known at a place, `specs/Typed.antt` what each expression is, `specs/Statements.antt` what is wrong with each
//! statement, and `specs/Bodies.antt` what is checked of a member.
#![tactic(auto)]

mod applying;
mod argument;
mod argument_list;
mod begun_body;
mod bodies;
mod body_progress;
mod calls;
mod choosing;
mod conditions;
mod constructors;
mod conversions;
mod declaring;
mod denoted;
mod denoting;
mod expressions;
mod faults;
mod fields;
mod forms;
mod found_field;
mod front;
mod imported_calls;
mod imported_fields;
mod imported_meaning;
pub mod laws;
mod local;
mod manner;
mod method_calls;
mod need;
mod operators;
mod owner;
mod params;
mod returns;
mod sides;
mod site;
mod statements;
mod texts;
mod top_statements;
mod value;
mod values;
mod variables;

pub use argument::Argument;
pub use argument_list::ArgumentList;
pub use bodies::{read_ctor_body, read_field_init, read_method_body};
pub use body_progress::BodyProgress;
pub use denoted::Denoted;
pub use found_field::FoundField;
pub use front::Front;
pub use local::Local;
pub use need::Need;
pub use site::Site;
pub use value::Value;
