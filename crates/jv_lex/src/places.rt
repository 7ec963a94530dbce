//! The line and the column of one offset.

ghost use Rattle.std.specs.Prelude.{◌≡◌, ◌<◌, ◌≤◌, length};
ghost use Rattle.jv_lex.specs.Place.{line_of, column_of};

use crate::line_column::Place;

/// The line and the column of the byte at the offset `at`, both from 1. Both are exact wherever `at` is below `u32::MAX`. It
/// takes time in `at`.
pub fn place(source: &[u8], at: u32) -> (u32, u32)
    requires { at ≤ length source.now }
    ensures line { at < u32.MAX → result.0 ≡ line_of source.now at }
    ensures column { at < u32.MAX → result.1 ≡ column_of source.now at }
{
    let place = Place::start().moved_to(source, at);
    (place.line, place.column)
}
