//! What a graph says of a scope.

ghost use Rattle.std.specs.Prelude.{◌≡◌, ◌<◌, option_copied};
ghost use Rattle.std.specs.List.{list_any};
ghost use Rattle.sg_base.specs.List.{IsRising};
ghost use Rattle.sg_base.specs.Scope.{is_scope, scope_cmp};
ghost use Rattle.sc_listing.specs.Graph.{datum_of, has_edge};

use jv_instance::JavaDatum;
use sg_base::{Graph, Label, Scope};

/// Whether a scope stands in a row, by a binary search.
fn is_among(row: &[Scope], s: Scope) -> bool
    requires { IsRising scope_cmp row.now }
    ensures { result ≡ list_any (λ t. is_scope t s) row.now }
{
    row.binary_search(&s).is_ok()
}

/// Whether a graph has an edge with a label from one scope to another. It takes a look-up and a binary search.
pub(crate) fn has_edge(graph: &Graph<JavaDatum>, from: Scope, label: u8, to: Scope) -> bool
    requires { label < 16 }
    ensures { result ≡ has_edge graph.now from label to }
{
    is_among(graph.edges_of(from, Label::new(label)), to)
}

/// The datum of a scope, where it has one, by a look-up.
pub(crate) fn datum_of(graph: &Graph<JavaDatum>, s: Scope) -> Option<&JavaDatum>
    ensures { option_copied result ≡ datum_of graph.now s }
{
    graph.datum(s)
}
