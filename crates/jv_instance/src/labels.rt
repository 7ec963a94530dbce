//! The labels of edges, by their numbers.

/// From the root or a package to a package directly in it (JLS 7.1).
pub const PKG: u8 = 0;

/// From a package or a type to a type that it declares (JLS 7.6, 8.5).
pub const TYPE: u8 = 1;

/// From a file to a top-level type that it declares (JLS 6.4.1).
pub const SELF: u8 = 2;

/// From a file to a type that it imports by its name (JLS 7.5.1).
pub const SIMP: u8 = 3;

/// From a file to its package (JLS 7.4).
pub const PKGOF: u8 = 4;

/// From a file to a package or a type that it imports on demand (JLS 7.5.2), `java.lang` among them (JLS 7.3).
pub const ODI: u8 = 5;

/// From a type to one that it extends or implements (JLS 8.1.4, 8.1.5, 9.1.3).
pub const EXT: u8 = 6;

/// From a type to a field that it declares (JLS 8.3, 9.3).
pub const FIELD: u8 = 7;

/// From a type to a method that it declares (JLS 8.4, 9.4).
pub const METH: u8 = 8;

/// From a class to its constructor (JLS 8.8).
pub const CTOR: u8 = 9;

/// From a field, a method or a constructor to the scope of its signature.
pub const SIG: u8 = 10;
