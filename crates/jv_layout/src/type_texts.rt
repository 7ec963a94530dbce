//! The printed names of types.

ghost use Rattle.std.specs.Prelude.{◌≡◌, ◌++◌, IfOk, OnOk};
ghost use Rattle.std.specs.String.{string_bytes};
ghost use Rattle.jv_layout.specs.Titles.{brackets, base_text, type_text};

use crate::tables::Layout;
use jv_instance::{Ty, TypeBase};
use jv_tree::Names;
use std::alloc::{AllocError, Global};

/// Adds so many pairs of brackets.
fn add_brackets(text: &mut String, dims: u8) -> Result<(), AllocError>
    ensures { OnOk result (string_bytes text.new ≡ string_bytes text.old ++ brackets dims) }
{
    let mut left = dims;
    while left > 0 {
        text.push_str("[]")?;
        left -= 1;
    }
    Ok(())
}

impl Layout {
    /// The printed name of a type without its brackets.
    fn base_text(&self, alloc: Global, names: &Names, base: TypeBase) -> Result<String, AllocError>
        ensures { IfOk result (λ s. string_bytes s ≡ base_text self.now names.now base) }
    {
        match base {
            TypeBase::Boolean => String::from_str(alloc, "boolean"),
            TypeBase::Char => String::from_str(alloc, "char"),
            TypeBase::Int => String::from_str(alloc, "int"),
            TypeBase::Long => String::from_str(alloc, "long"),
            TypeBase::Class(class) => self.title(alloc, names, class),
            TypeBase::Null => String::from_str(alloc, "null"),
            TypeBase::Void => String::from_str(alloc, "void"),
            TypeBase::Bad => String::from_str(alloc, "?"),
        }
    }

    /// The printed name of a type: a primitive type, `null` and `void` by their words, a class or an interface by its title,
    /// and `[]` for each pair of brackets. A bad type is `?`, whatever its brackets. It takes time in the length of the text.
    pub fn type_text(&self, alloc: Global, names: &Names, ty: Ty) -> Result<String, AllocError>
        ensures { IfOk result (λ s. string_bytes s ≡ type_text self.now names.now ty) }
    {
        if ty.is_bad() {
            return String::from_str(alloc, "?");
        }
        let mut text = self.base_text(alloc, names, ty.base)?;
        add_brackets(&mut text, ty.dims)?;
        Ok(text)
    }
}
