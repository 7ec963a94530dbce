//! The kinds of queries, by their numbers.

/// The packages directly in the root or in a package (JLS 7.1).
pub const SUBPKG: u8 = 0;

/// The types that a package or a type declares itself (JLS 7.6, 8.5).
pub const OWNTYPE: u8 = 1;

/// The member types of a type, its own before those of its supertypes (JLS 8.5, 9.5).
pub const MEMTYPE: u8 = 2;

/// The types that a file sees: its own, then those that it imports by name, those of its package, and those that it imports on
/// demand (JLS 6.4.1, 7.5).
pub const FILETYPE: u8 = 3;

/// The fields of a type, its own before those of its supertypes (JLS 8.3, 9.3).
pub const FIELDS: u8 = 4;

/// The methods of a type, its own before those of its supertypes (JLS 8.4, 9.4).
pub const METHODS: u8 = 5;

/// The methods of a type's proper supertypes (JLS 8.4.8).
pub const ABOVE: u8 = 6;

/// The constructor of a class (JLS 8.8).
pub const CTORS: u8 = 7;

/// The signature of a field, a method or a constructor (JLS 8.4.2).
pub const SIG: u8 = 8;

/// A type and all its supertypes (JLS 4.10.2).
pub const SUPERS: u8 = 9;
