ghost use Rattle.std.specs.Prelude.{◌≡◌, IfOk, Some, length, map};
ghost use Rattle.std.specs.Str.{chars};
ghost use Rattle.std.specs.String.{string_bytes};
ghost use Rattle.jv_diag.specs.Text.{filled, takes, text_of};

use crate::diagnostic::Diag;
use crate::fill::filled;
use crate::texts::text_of;
use std::alloc::{AllocError, Global};

/// The diagnostic of a code at a place, with the arguments in its text, as many as the code takes. Takes the time of the text.
pub fn diag(alloc: Global, file: u32, at: u32, code: u8, args: &[&str]) -> Result<Diag, AllocError>
    requires { takes code ≡ Some (length args.now) }
    ensures file { IfOk result (λ d. d.file ≡ file) }
    ensures at { IfOk result (λ d. d.at ≡ at) }
    ensures code { IfOk result (λ d. d.code ≡ code) }
    ensures text { IfOk result (λ d. string_bytes d.text ≡ filled (chars (text_of code)) (map (λ a. a.now) args.now)) }
{
    let text = filled(alloc, text_of(code), args)?;
    Ok(Diag {
        file,
        at,
        code,
        text,
    })
}
