//! Numbers for texts, in first-seen order.

ghost use Rattle.std.specs.Prelude.{◌≡◌, ℕ, ◌+◌, ◌-◌, ◌<◌, ◌≤◌, ◌^◌, List, [], ◌∷◌, ◌++◌, length, map, position, option_map, slice_get, if◌then◌else◌, IfOk, OnOk, OnErr, IfSome, Some};
ghost use Rattle.std.specs.Str.{bytes_eq};
ghost use Rattle.jv_tree.specs.Names.{AreDistinct, with_text};

use indexmap::IndexSet;
use std::alloc::{AllocError, Global};
use std::marker::Model;

/// The number of a text, from 0.
#[derive(Clone, Copy, Debug, PartialEq, Eq, Hash)]
pub struct NameId(pub u32);

/// The texts that have numbers, in first-seen order: the number of a text is its place.
#[derive(Drop)]
pub struct Names {
    texts: IndexSet<String>,
    alloc: Global,
}

impl Model for Names {
    ghost use Rattle.std.specs.Prelude.{List, ℕ, map, length, ◌<◌, ◌^◌};
    ghost use Rattle.std.specs.String.{string_bytes};
    ghost use Rattle.jv_tree.specs.Names.{AreDistinct};

    ghost Value = { List (List ℕ) };

    ghost view = { λ s. map string_bytes s.texts.keys };

    ghost invariant = { λ s. (length s.texts.keys < 2 ^ 32)
        × AreDistinct (map string_bytes s.texts.keys) };
}

impl Names {
    /// No names. It takes no memory.
    pub fn new(alloc: Global) -> Names
        ensures { result ≡ [] }
    {
        Names {
            texts: IndexSet::new(alloc),
            alloc,
        }
    }

    /// How many names there are.
    pub fn len(&self) -> u32
        ensures value { result ≡ length self.now }
        ensures distinct { AreDistinct self.now }
    {
        self.texts.len() as u32
    }

    /// The number of a text, where it has one. It takes time in the length of the text.
    pub fn find(&self, text: &str) -> Option<NameId>
        ensures { option_map (λ id. id.0) result ≡ position (bytes_eq text.now) self.now }
    {
        match self.texts.get_index_of(text) {
            Some(index) => Some(NameId(index as u32)),
            None => None,
        }
    }

    /// The text of a number.
    pub fn text(&self, id: NameId) -> &str
        requires { id.0 < length self.now }
        ensures { slice_get self.now id.0 ≡ Some result.now }
    {
        match self.texts.get_index(id.0 as usize) {
            Some(text) => text.as_str(),
            None => unreachable!(),
        }
    }

    /// The number of a text, which gets the next one where it has none. It takes time in the length of the text.
    pub fn intern(&mut self, text: &str) -> Result<NameId, AllocError>
        requires { length self.old < u32.MAX }
        ensures number { IfOk result (λ id. slice_get self.new id.0 ≡ Some text.now) }
        ensures ok { OnOk result (self.new ≡ with_text self.old text.now) }
        ensures distinct { AreDistinct self.new }
        ensures err { OnErr result (self.new ≡ self.old) }
    {
        if let Some(index) = self.texts.get_index_of(text) {
            return Ok(NameId(index as u32));
        }
        let owned = String::from_str(self.alloc, text)?;
        let (index, _) = self.texts.insert_full(owned)?;
        Ok(NameId(index as u32))
    }
}
