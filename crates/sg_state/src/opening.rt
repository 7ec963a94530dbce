ghost use Rattle.std.specs.Prelude.{◌≡◌, IsTrue, ◌↔◌};
ghost use Rattle.sg_base.specs.List.{IsRising, IsDistinct};
ghost use Rattle.sg_base.specs.Scope.{scope_cmp};
ghost use Rattle.sg_state.specs.Opening.{IsSoundOpening, opening_of, data_of, lists_all_named};

use crate::sound;
use sg_base::{Label, Scope};

/// The graph with which a run begins, and who holds what there: the scopes, which are no unit's (their unit is
/// `u32::MAX`), the edges, the data, the rows and the unset data that units hold, and how many units there are.
#[derive(Drop)]
pub struct Opening<D> {
    pub scopes: Vec<Scope>,
    pub edges: Vec<(Scope, Label, Scope)>,
    pub given: Vec<(Scope, D)>,
    pub row_holds: Vec<(u32, Scope, Label)>,
    pub datum_holds: Vec<(u32, Scope)>,
    pub units: u32,
}

impl<D> Opening<D> {
    /// Whether a run may begin with the opening. Takes no memory. Where the scopes, the scopes of the data that are given and
    /// those of the unset data are each listed in rising order, each thing listed costs a binary search. Otherwise it costs
    /// a comparison with each scope, and each datum one with each other datum.
    pub fn is_sound(&self) -> bool
        ensures { IsTrue result ↔ IsSoundOpening (opening_of self.now) }
    {
        let rising = sound::rises(&self.scopes);
        if self.units >= u32::MAX {
            return false;
        }
        if !sound::is_distinct(&self.scopes, rising) {
            return false;
        }
        if !self.is_listed(rising) {
            return false;
        }
        self.has_one_datum_each()
    }

    /// Whether all that the opening names is listed, with holders that are units.
    fn is_listed(&self, rising: bool) -> bool
        requires rising { IsTrue rising → IsRising scope_cmp self.now.scopes.items }
        ensures { result ≡ lists_all_named self.now }
    {
        sound::are_nobodys(&self.scopes)
            && sound::are_edges(&self.scopes, rising, &self.edges)
            && sound::are_data(&self.scopes, rising, &self.given)
            && sound::are_row_holds(&self.scopes, rising, self.units, &self.row_holds)
            && sound::are_datum_holds(&self.scopes, rising, self.units, &self.datum_holds)
    }

    /// Whether no scope has two data, given or unset.
    fn has_one_datum_each(&self) -> bool
        ensures { IsTrue result ↔ IsDistinct (data_of (opening_of self.now)) }
    {
        if !sound::given_apart(&self.given) {
            return false;
        }
        if !sound::holds_apart(&self.datum_holds) {
            return false;
        }
        sound::none_twice(&self.given, &self.datum_holds)
    }
}
