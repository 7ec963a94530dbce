ghost use Rattle.std.specs.Prelude.{◌≡◌, IfOk};
ghost use Rattle.jv_diag.specs.Line.{last_line};

use itoa::Buffer;
use std::alloc::{AllocError, Global};

/// The last line of a report: how many errors there are, or where there is none, how many files and types were checked.
pub fn last_line(alloc: Global, errors: u64, files: u32, types: u32) -> Result<Vec<u8>, AllocError>
    ensures { IfOk result (λ v. v.items ≡ last_line errors files types) }
{
    let mut number = Buffer::new();
    let mut text = Vec::new(alloc);
    if errors == 0 {
        text.extend_from_slice(b"ok files ")?;
        text.extend_from_slice(number.format(files).as_bytes())?;
        text.extend_from_slice(b" types ")?;
        text.extend_from_slice(number.format(types).as_bytes())?;
    } else {
        text.extend_from_slice(b"errors ")?;
        text.extend_from_slice(number.format(errors).as_bytes())?;
    }
    text.extend_from_slice(b"\n")?;
    Ok(text)
}
