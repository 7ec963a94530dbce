ghost use Rattle.std.specs.Prelude.{◌≡◌};
ghost use Rattle.std.specs.List.{list_any};
ghost use Rattle.jv_instance.specs.Types.{is_bad};
ghost use Rattle.jv_names.specs.Read.{same_types};

use jv_instance::{Ty, TypeList};
use jv_types::is_type;
use std::marker::Model;

/// A signature as it is read from an answer: a result, and the types of parameters.
#[derive(Debug, Drop)]
pub struct ReadSignature {
    pub result: Ty,
    pub params: TypeList,
}

impl Model for ReadSignature {
    ghost use Rattle.jv_names.specs.Read.{SignatureOf};

    ghost Value = { SignatureOf };

    ghost view = { λ s. record { result = s.result; params = s.params } };
}

/// Whether some type is bad. It takes time in their number.
fn some_bad(types: &[Ty]) -> bool
    ensures { result ≡ list_any is_bad types.now }
{
    types.iter().any(|ty| ty.is_bad())
}

/// Whether two lists of types are equal. It takes time in their number.
fn same_types(left: &[Ty], right: &[Ty]) -> bool
    ensures { result ≡ same_types left.now right.now }
{
    let mut ours = left;
    let mut theirs = right;
    while let [ty, more @ ..] = ours {
        match theirs {
            [] => return false,
            [other, others @ ..] => {
                if !is_type(*ty, *other) {
                    return false;
                }
                ours = more;
                theirs = others;
            }
        }
    }
    theirs.is_empty()
}

impl ReadSignature {
    ghost use Rattle.std.specs.Prelude.{◌≡◌};
    ghost use Rattle.jv_names.specs.Read.{is_whole, same_types, has_some};

    /// Whether no type of the signature is bad. It takes time in the number of parameters.
    pub fn is_whole(&self) -> bool
        ensures { result ≡ is_whole self.now }
    {
        !(self.result.is_bad() || some_bad(self.params.as_slice()))
    }

    /// Whether two signatures have the same parameters. It takes time in their number.
    pub fn has_params_of(&self, other: &ReadSignature) -> bool
        ensures { result ≡ same_types self.now.params other.now.params }
    {
        same_types(self.params.as_slice(), other.params.as_slice())
    }

    /// Whether the signature takes arguments. It takes constant time.
    pub fn takes_arguments(&self) -> bool
        ensures { result ≡ has_some self.now.params }
    {
        match self.params.as_slice() {
            [] => false,
            _ => true,
        }
    }
}
