//! The codes of diagnostics by name; `docs/CODES.md` explains each, with a folder that has it.

/// The source is not UTF-8 (JLS 3.1, 3.2).
pub const NOT_UTF8: u8 = 1;

/// The tokens derive no file (JLS 2.3, 19).
pub const SYNTAX_ERROR: u8 = 2;

/// What begins as a literal is none (JLS 3.10).
pub const BAD_LITERAL: u8 = 3;

/// The source nests deeper than the load allows.
pub const NESTED_TOO_DEEP: u8 = 4;

/// What stands there begins no token (JLS 3.5).
pub const BAD_TOKEN: u8 = 5;

/// A second type of one name in a package or a type (JLS 7.6, 8.5, 9.5).
pub const DUPLICATE_TYPE: u8 = 10;

/// A second constructor of a class (JLS 8.8.2, 8.8.8).
pub const SECOND_CONSTRUCTOR: u8 = 11;

/// An import whose name means nothing that it may mean (JLS 7.5).
pub const UNKNOWN_IMPORT: u8 = 12;

/// A single import with the name of a type of its file (JLS 7.5.1).
pub const IMPORT_CLASHES_WITH_TYPE: u8 = 13;

/// A single import with the name of an earlier one (JLS 7.5.1).
pub const IMPORT_CLASHES_WITH_IMPORT: u8 = 14;

/// A top-level type with the name of a package (JLS 7.1).
pub const TYPE_AND_PACKAGE: u8 = 16;

/// A type with the name of one around it (JLS 8.1, 9.1).
pub const NAME_OF_ENCLOSING_TYPE: u8 = 17;

/// A second field of one name in a type (JLS 8.3, 9.3).
pub const DUPLICATE_FIELD: u8 = 18;

/// Modifiers that may not stand at a declaration (JLS 8.1.1, 8.3.1, 8.4.3, 8.8.3, 9.1.1, 9.3, 9.4).
pub const MODIFIERS: u8 = 19;

/// The name of a type means nothing (JLS 6.5.5).
pub const UNKNOWN_TYPE: u8 = 20;

/// The name of a type means several (JLS 6.5.5).
pub const AMBIGUOUS_TYPE: u8 = 21;

/// A type that is not accessible (JLS 6.6.1).
pub const INACCESSIBLE_TYPE: u8 = 22;

/// A type that is among its own supertypes (JLS 8.1.4, 9.1.3).
pub const DEPENDS_ON_ITSELF: u8 = 25;

/// A class that extends an interface (JLS 8.1.4).
pub const NO_CLASS: u8 = 26;

/// An interface is wanted where a class stands (JLS 8.1.5, 9.1.3).
pub const NO_INTERFACE: u8 = 27;

/// A class that extends a final one (JLS 8.1.1.2, 8.1.4).
pub const FINAL_SUPERCLASS: u8 = 28;

/// An interface that stands twice in a clause (JLS 8.1.5, 9.1.3).
pub const REPEATED_INTERFACE: u8 = 29;

/// A header that waits for headers (JLS 8.1.4, 9.1.3).
pub const WAITING_HEADER: u8 = 30;

/// A static method and an instance method meet (JLS 8.4.8.1, 8.4.8.2).
pub const STATIC_AND_INSTANCE: u8 = 31;

/// A method over a final one (JLS 8.4.3.3).
pub const OVERRIDES_FINAL: u8 = 32;

/// A method with weaker access than one that it is over (JLS 8.4.8.3).
pub const WEAKER_ACCESS: u8 = 33;

/// A method whose result does not fit that of one that it is over (JLS 8.4.5, 8.4.8.3).
pub const OTHER_RESULT: u8 = 34;

/// A class that does not implement a method (JLS 8.1.1.1).
pub const UNIMPLEMENTED: u8 = 35;

/// Methods of one name with other parameters (JLS 8.4.2, 8.4.9).
pub const OVERLOADED: u8 = 36;

/// A method with a body that is abstract, or without one that is not (JLS 8.4.3.1, 8.4.7, 9.4.3).
pub const WRONG_BODY: u8 = 37;

/// A superclass without a constructor that takes no arguments (JLS 8.8.7, 8.8.9).
pub const NO_CONSTRUCTOR: u8 = 38;

/// A local variable or a parameter with the name of one in scope (JLS 6.4).
pub const DUPLICATE_VARIABLE: u8 = 39;

/// The name of a variable means nothing (JLS 6.5.6).
pub const UNKNOWN_NAME: u8 = 40;

/// Too many paths to what is looked for.
pub const TOO_MANY_PATHS: u8 = 41;

/// The name of a method means nothing (JLS 15.12.1).
pub const UNKNOWN_METHOD: u8 = 42;

/// A name means several members (JLS 8.3.3.3, 9.3).
pub const AMBIGUOUS_NAME: u8 = 43;

/// A member that is not accessible (JLS 6.6.1, 6.6.2).
pub const INACCESSIBLE_MEMBER: u8 = 44;

/// A value that does not fit what is wanted (JLS 5.2, 5.3).
pub const OTHER_TYPE: u8 = 45;

/// An operator on operands that it does not take (JLS 15).
pub const OPERANDS: u8 = 46;

/// Another number of arguments than of parameters (JLS 15.12.2).
pub const NUMBER_OF_ARGUMENTS: u8 = 47;

/// No instance for what needs one (JLS 8.1.3, 15.8.3).
pub const NO_INSTANCE: u8 = 48;

/// Something abstract where that may not stand (JLS 15.9.1, 15.12.3).
pub const ABSTRACT: u8 = 49;

/// No variable where one is wanted (JLS 15.14, 15.15, 15.26).
pub const NO_VARIABLE: u8 = 50;

/// A statement that stands in no loop (JLS 14.15, 14.16).
pub const NO_LOOP: u8 = 52;

/// A `return` that does not fit its body (JLS 14.17).
pub const WRONG_RETURN: u8 = 53;

/// A value that cannot be cast (JLS 5.5).
pub const NO_CAST: u8 = 55;

/// A final variable that is assigned (JLS 4.12.4).
pub const FINAL_VARIABLE: u8 = 56;

/// No enclosing instance for an inner class (JLS 8.8.7.1, 15.9.2).
pub const NO_ENCLOSING_INSTANCE: u8 = 57;

/// Default methods that meet (JLS 8.4.8.4, 9.4.1.3).
pub const DEFAULTS_MEET: u8 = 58;

/// A static method of an interface that is called on a value (JLS 15.12.3).
pub const STATIC_OF_INTERFACE: u8 = 59;

/// A statement that no run executes (JLS 14.21).
pub const UNREACHABLE: u8 = 60;

/// A body with a result that may end without one (JLS 8.4.7).
pub const MISSING_RETURN: u8 = 61;
