//! Files and all that they declare: imports, classes and interfaces, and their members.

mod constructors;
mod fields;
pub(crate) mod files;
mod first_words;
mod imports;
mod members;
mod methods;
mod modifiers;
mod parameters;
mod supertypes;
mod type_declarations;
