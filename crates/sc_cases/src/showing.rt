//! What a run shows, and whether it is wanted.

ghost use Rattle.std.specs.Prelude.{◌≡◌, ◌↔◌, IsTrue};

use std::str;

/// What is compared of bytes that were written: all lines, or all but the last, without the end of the last one of them. Nothing
/// where they are not UTF-8, or do not end with a line's end.
pub(crate) fn shown(written: &[u8], is_whole: bool) -> Option<&str> {
    let text = str::from_utf8(written).ok()?;
    if is_whole && text.is_empty() {
        return Some("");
    }
    let lines = text.strip_suffix('\n')?;
    if is_whole {
        return Some(lines);
    }
    match lines.rsplit_once('\n') {
        Some((lines, _)) => Some(lines),
        None => Some(""),
    }
}

/// Whether these lines and this status are those that are wanted.
pub(crate) fn is_wanted(shown: &str, wanted: &str, status: u8, wanted_status: u8) -> bool
    ensures { IsTrue result ↔ (shown.now ≡ wanted.now) × (status ≡ wanted_status) }
{
    shown == wanted && status == wanted_status
}
