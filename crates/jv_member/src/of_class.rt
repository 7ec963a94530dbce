//! Abstract methods that classes declare.

ghost use Rattle.std.specs.Prelude.{◌≡◌};
ghost use Rattle.std.specs.List.{list_any};
ghost use Rattle.jv_member.specs.Overriding.{is_abstract_of_class};

use jv_layout::Layout;
use sg_base::Scope;

/// Whether a method is an abstract one that a class declares (JLS 8.4.3.1).
fn is_abstract_of_class(l: &Layout, method: Scope) -> bool
    ensures { result ≡ is_abstract_of_class l.now method }
{
    l.is_abstract(method) && !l.is_interface_method(method)
}

/// Whether one of the methods is an abstract one that a class declares. It takes time in the number of methods.
pub fn has_abstract_of_class(l: &Layout, methods: &[Scope]) -> bool
    ensures { result ≡ list_any (is_abstract_of_class l.now) methods.now }
{
    methods
        .iter()
        .any(|method| is_abstract_of_class(l, *method))
}
