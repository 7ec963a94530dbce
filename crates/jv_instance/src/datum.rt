ghost use Rattle.std.specs.Prelude.{◌≡◌};
ghost use Rattle.jv_instance.specs.Data.{name_of};

use crate::ty::Ty;
use crate::type_list::TypeList;
use jv_tree::NameId;

/// What stands at a scope: the simple name of a package, of a type, or of a field, method or constructor (whose name is
/// its class's), or the types of a signature: the name of its member, the type of a field or the result of a method
/// (`void` for a constructor), and the types of the parameters (JLS 8.2, 8.4.2).
#[derive(Debug, Drop)]
pub enum JavaDatum {
    Package {
        name: NameId,
    },
    TypeName {
        name: NameId,
    },
    Member {
        name: NameId,
    },
    Signature {
        name: NameId,
        result: Ty,
        params: TypeList,
    },
}

impl JavaDatum {
    /// The name of a datum.
    pub fn name(&self) -> NameId
        ensures { result.0 ≡ name_of self.now }
    {
        match self {
            JavaDatum::Package { name } => *name,
            JavaDatum::TypeName { name } => *name,
            JavaDatum::Member { name } => *name,
            JavaDatum::Signature { name, .. } => *name,
        }
    }
}
