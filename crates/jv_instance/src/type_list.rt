ghost use Rattle.std.specs.Prelude.{◌≡◌, IfOk};

use crate::ty::Ty;
use std::alloc::{AllocError, Global};
use std::marker::Model;

/// The types of parameters, which contracts see as their list.
#[derive(Debug, Drop)]
pub struct TypeList {
    types: Vec<Ty>,
}

impl Model for TypeList {
    ghost use Rattle.std.specs.Prelude.{List};
    ghost use Rattle.jv_instance.specs.declared.ty.Ty.{Ty};

    ghost Value = { List Ty };

    ghost view = { λ l. l.types.items };
}

impl TypeList {
    /// The list of these types. It takes no memory.
    pub fn new(types: Vec<Ty>) -> TypeList
        ensures { result ≡ types.items }
    {
        TypeList { types }
    }

    /// The types, first to last.
    pub fn as_slice(&self) -> &[Ty]
        ensures { result.now ≡ self.now }
    {
        self.types.as_slice()
    }

    /// A copy of the list. It takes time in its length.
    pub fn copy(&self) -> Result<TypeList, AllocError>
        ensures { IfOk result (λ c. c ≡ self.now) }
    {
        let types = self.types.clone()?;
        Ok(TypeList { types })
    }
}
