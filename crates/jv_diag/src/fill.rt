ghost use Rattle.std.specs.Prelude.{◌≡◌, IfOk, map};
ghost use Rattle.std.specs.Str.{chars};
ghost use Rattle.std.specs.String.{string_bytes};
ghost use Rattle.jv_diag.specs.Text.{filled};

use std::alloc::{AllocError, Global};

/// A text with the arguments in the places of its marks.
pub(crate) fn filled(alloc: Global, template: &str, args: &[&str]) -> Result<String, AllocError>
    ensures { IfOk result (λ s. string_bytes s ≡ filled (chars template.now) (map (λ a. a.now) args.now)) }
{
    let mut text = String::new(alloc);
    let mut next = 0;
    for c in template.chars() {
        if c == '$' {
            if next < args.len() {
                text.push_str(args[next])?;
                next += 1;
            }
        } else {
            text.push(c)?;
        }
    }
    Ok(text)
}
