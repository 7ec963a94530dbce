//! The line of a diagnostic.

ghost use Rattle.std.specs.Prelude.{◌≡◌, ◌<◌, ◌≤◌, ◌++◌, IfOk, OnOk, length};
ghost use Rattle.jv_diag.specs.Line.{code_text, diag_line, place_text, placed_line};

use crate::diagnostic::Diag;
use itoa::Buffer;
use jv_lex::Place;
use std::alloc::{AllocError, Global};

/// The line of a diagnostic, by the path of its file and the file's bytes: path, line, column, code and text. Lines and
/// columns count from 1, columns by characters; both are exact where the place is below `u32::MAX`. Takes the time of the
/// source up to the place, and of the text.
pub fn line(alloc: Global, path: &str, source: &[u8], d: &Diag) -> Result<Vec<u8>, AllocError>
    requires { d.now.at ≤ length source.now }
    ensures { d.now.at < 4294967295 → IfOk result (λ v. v.items ≡ diag_line path.now source.now d.now) }
{
    let place = Place::start().moved_to(source, d.at);
    let mut text = Vec::new(alloc);
    push_line(&mut text, path, place, d)?;
    Ok(text)
}

/// Adds the line of a diagnostic whose place is known, so that a report that goes from place to place walks over a source
/// once. Takes the time of the line.
pub fn push_line(text: &mut Vec<u8>, path: &str, place: Place, d: &Diag) -> Result<(), AllocError>
    ensures { OnOk result (text.new.items ≡ text.old.items ++ placed_line path.now place.line place.column d.now) }
{
    push_place(text, path, place)?;
    push_code(text, d.code)?;
    text.extend_from_slice(b" ")?;
    text.extend_from_slice(d.text.as_bytes())?;
    text.extend_from_slice(b"\n")
}

/// Adds a path, a line and a column.
fn push_place(text: &mut Vec<u8>, path: &str, place: Place) -> Result<(), AllocError>
    ensures { OnOk result (text.new.items ≡ text.old.items ++ place_text path.now place.line place.column) }
{
    let mut number = Buffer::new();
    text.extend_from_slice(path.as_bytes())?;
    text.extend_from_slice(b":")?;
    text.extend_from_slice(number.format(place.line).as_bytes())?;
    text.extend_from_slice(b":")?;
    text.extend_from_slice(number.format(place.column).as_bytes())?;
    text.extend_from_slice(b": ")
}

/// Adds a code as it is printed.
fn push_code(text: &mut Vec<u8>, code: u8) -> Result<(), AllocError>
    ensures { OnOk result (text.new.items ≡ text.old.items ++ code_text code) }
{
    let mut number = Buffer::new();
    text.extend_from_slice(b"E")?;
    if code < 10 {
        text.extend_from_slice(b"0")?;
    }
    text.extend_from_slice(number.format(code).as_bytes())
}
