//! Names as they are written.

ghost use Rattle.std.specs.Prelude.{◌≡◌, ◌++◌, IfOk, OnOk};
ghost use Rattle.std.specs.String.{string_bytes};
ghost use Rattle.jv_layout.specs.Folder.{numbers_of};
ghost use Rattle.jv_layout.specs.Titles.{following};
ghost use Rattle.jv_names.specs.Written.{written, start_of, last_name, without_last};

use jv_layout::text_of;
use jv_tree::{Ident, NameId, Names};
use std::alloc::{AllocError, Global};

/// Adds a dot and a text for each identifier.
fn push_following(text: &mut String, names: &Names, ids: &[Ident]) -> Result<(), AllocError>
    ensures { OnOk result (string_bytes text.new ≡ string_bytes text.old ++ following names.now (numbers_of ids.now)) }
{
    for ident in ids {
        text.push('.')?;
        text.push_str(text_of(names, ident.id))?;
    }
    Ok(())
}

/// The text of a name: its identifiers with dots between them. It takes time in the length of the text.
pub fn written(alloc: Global, names: &Names, ids: &[Ident]) -> Result<String, AllocError>
    ensures { IfOk result (λ s. string_bytes s ≡ written names.now ids.now) }
{
    match ids.split_first() {
        None => Ok(String::new(alloc)),
        Some((first, rest)) => {
            let mut text = String::from_str(alloc, text_of(names, first.id))?;
            push_following(&mut text, names, rest)?;
            Ok(text)
        }
    }
}

/// The offset at which a name starts, and 0 for a name without identifiers.
pub fn start_of(ids: &[Ident]) -> u32
    ensures { result ≡ start_of ids.now }
{
    match ids.first() {
        Some(ident) => ident.at,
        None => 0,
    }
}

/// The last identifier of a name; a number that stands for none where the name has no identifier.
pub fn last_name(ids: &[Ident]) -> NameId
    ensures { result ≡ last_name ids.now }
{
    match ids.split_last() {
        Some((last, _)) => last.id,
        None => NameId(0),
    }
}

/// A name without its last identifier. It takes no memory.
pub(crate) fn without_last(ids: &[Ident]) -> &[Ident]
    ensures { result.now ≡ without_last ids.now }
{
    match ids.split_last() {
        Some((_, before)) => before,
        None => &[],
    }
}
