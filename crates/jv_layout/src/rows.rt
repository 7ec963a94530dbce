//! What a layout keeps of each package, type and member.

ghost use Rattle.std.specs.Prelude.{◌≡◌};
ghost use Rattle.jv_layout.specs.Folder.{modifiers_of, no_modifiers};

use crate::words::{ABSTRACT, DEFAULT, FINAL, PRIVATE, PROTECTED, PUBLIC, STATIC, is_written};
use jv_tree::{Mods, NameId};

/// Which modifiers are written at a declaration (JLS 8.1.1, 8.3.1, 8.4.3, 9.4).
#[derive(Clone, Copy, Debug, PartialEq, Eq)]
pub struct Modifiers {
    pub is_public: bool,
    pub is_protected: bool,
    pub is_private: bool,
    pub is_static: bool,
    pub is_abstract: bool,
    pub is_final: bool,
    pub is_default: bool,
}

impl Modifiers {
    /// No modifier.
    pub fn none() -> Modifiers
        ensures { result ≡ no_modifiers }
    {
        Modifiers {
            is_public: false,
            is_protected: false,
            is_private: false,
            is_static: false,
            is_abstract: false,
            is_final: false,
            is_default: false,
        }
    }

    /// The modifiers that are written, by the numbers of their keywords.
    pub fn of(mods: &Mods) -> Modifiers
        ensures { result ≡ modifiers_of mods.now.words.items }
    {
        Modifiers {
            is_public: is_written(PUBLIC, &mods.words),
            is_protected: is_written(PROTECTED, &mods.words),
            is_private: is_written(PRIVATE, &mods.words),
            is_static: is_written(STATIC, &mods.words),
            is_abstract: is_written(ABSTRACT, &mods.words),
            is_final: is_written(FINAL, &mods.words),
            is_default: is_written(DEFAULT, &mods.words),
        }
    }
}

/// A package: the number of the package that encloses it, where one does, and its simple name.
#[derive(Clone, Copy, Debug, PartialEq, Eq)]
pub struct PackageRow {
    pub parent: Option<u32>,
    pub name: NameId,
}

/// A type: the number of its file, of the type in whose body it stands, where it stands in one, and of its outermost
/// type, its simple name and what is written in front of it.
#[derive(Clone, Copy, Debug, PartialEq, Eq)]
pub struct TypeRow {
    pub file: u32,
    pub owner: Option<u32>,
    pub top: u32,
    pub name: NameId,
    pub modifiers: Modifiers,
    pub interface: bool,
}

/// What a member is; a class without a constructor has a default one (JLS 8.8.9).
#[derive(Clone, Copy, Debug, PartialEq, Eq)]
pub enum MemberKind {
    Field,
    Method,
    Ctor,
    DefaultCtor,
}

/// A field, a method or a constructor: the number of its type, and its simple name, which for a constructor is its
/// class's.
#[derive(Clone, Copy, Debug, PartialEq, Eq)]
pub struct MemberRow {
    pub owner: u32,
    pub kind: MemberKind,
    pub name: NameId,
    pub modifiers: Modifiers,
}
