//! What an opening must be.

ghost use Rattle.std.specs.Prelude.{◌≡◌, ◌==◌, ◌&&◌, not, nat_lt, map, IsTrue, ◌↔◌};
ghost use Rattle.std.specs.List.{list_all, list_any};
ghost use Rattle.sg_base.specs.List.{IsDistinct, IsRising};
ghost use Rattle.sg_base.specs.Scope.{scope_cmp, is_scope};
ghost use Rattle.sg_state.specs.Listed.{lists};
ghost use Rattle.sg_state.specs.Opening.{nobody};

use sg_base::{Label, Scope};

/// Whether each scope is less than the next.
pub fn rises(scopes: &[Scope]) -> bool
    ensures { IsTrue result → IsRising scope_cmp scopes.now }
{
    for i in 1..scopes.len() {
        if scopes[i - 1] >= scopes[i] {
            return false;
        }
    }
    true
}

/// Whether a scope stands in a list. Compares it with each.
fn stands_in(scopes: &[Scope], s: Scope) -> bool
    ensures { result ≡ lists scopes.now s }
{
    scopes.contains(&s)
}

/// Whether no scope stands twice. Compares each scope with those behind it.
fn apart(scopes: &[Scope]) -> bool
    ensures { IsTrue result ↔ IsDistinct (map (λ s. s) scopes.now) }
{
    for i in 0..scopes.len() {
        let s = scopes[i];
        if stands_in(&scopes[i + 1..], s) {
            return false;
        }
    }
    true
}

/// Whether no scope stands twice in a list, which may rise.
pub fn is_distinct(scopes: &[Scope], rising: bool) -> bool
    requires rising { IsTrue rising → IsRising scope_cmp scopes.now }
    ensures { IsTrue result ↔ IsDistinct scopes.now }
{
    if rising {
        return true;
    }
    apart(scopes)
}

/// Whether a scope is listed, by a binary search where the list rises.
fn lists(scopes: &[Scope], rising: bool, s: Scope) -> bool
    requires rising { IsTrue rising → IsRising scope_cmp scopes.now }
    ensures { result ≡ lists scopes.now s }
{
    if rising {
        scopes.binary_search(&s).is_ok()
    } else {
        stands_in(scopes, s)
    }
}

/// Whether each scope is nobody's.
pub fn are_nobodys(scopes: &[Scope]) -> bool
    ensures { result ≡ list_all (λ s. s.unit == nobody) scopes.now }
{
    scopes.iter().all(|s| s.unit == u32::MAX)
}

/// Whether the ends of each edge are listed, and its label is below 16.
pub fn are_edges(scopes: &[Scope], rising: bool, edges: &[(Scope, Label, Scope)]) -> bool
    requires rising { IsTrue rising → IsRising scope_cmp scopes.now }
    ensures { result ≡ list_all (λ e. nat_lt e.1 16 && (lists scopes.now e.0 && lists scopes.now e.2)) edges.now }
{
    edges.iter().all(|e| e.1.number() < 16
        && lists(scopes, rising, e.0)
        && lists(scopes, rising, e.2))
}

/// Whether the scope of each datum is listed.
pub fn are_data<D>(scopes: &[Scope], rising: bool, given: &[(Scope, D)]) -> bool
    requires rising { IsTrue rising → IsRising scope_cmp scopes.now }
    ensures { result ≡ list_all (λ p. lists scopes.now p.0) given.now }
{
    given.iter().all(|p| lists(scopes, rising, p.0))
}

/// Whether each row stands at a scope that is listed, with a label below 16 and a holder below the number of units.
pub fn are_row_holds(
    scopes: &[Scope],
    rising: bool,
    units: u32,
    holds: &[(u32, Scope, Label)],
) -> bool
    requires rising { IsTrue rising → IsRising scope_cmp scopes.now }
    ensures { result ≡ list_all (λ k. nat_lt k.0 units && (nat_lt k.2 16 && lists scopes.now k.1)) holds.now }
{
    holds.iter().all(|k| k.0 < units && k.2.number() < 16 && lists(scopes, rising, k.1))
}

/// Whether each unset datum stands at a scope that is listed, with a holder below the number of units.
pub fn are_datum_holds(scopes: &[Scope], rising: bool, units: u32, holds: &[(u32, Scope)]) -> bool
    requires rising { IsTrue rising → IsRising scope_cmp scopes.now }
    ensures { result ≡ list_all (λ k. nat_lt k.0 units && lists scopes.now k.1) holds.now }
{
    holds
        .iter()
        .all(|k| k.0 < units && lists(scopes, rising, k.1))
}

/// Whether the scope of each datum is less than the next one's.
fn given_rise<D>(given: &[(Scope, D)]) -> bool
    ensures { IsTrue result → IsRising scope_cmp (map (λ p. p.0) given.now) }
{
    for i in 1..given.len() {
        if given[i - 1].0 >= given[i].0 {
            return false;
        }
    }
    true
}

/// Whether the scope of each unset datum is less than the next one's.
fn holds_rise(holds: &[(u32, Scope)]) -> bool
    ensures { IsTrue result → IsRising scope_cmp (map (λ k. k.1) holds.now) }
{
    for i in 1..holds.len() {
        if holds[i - 1].1 >= holds[i].1 {
            return false;
        }
    }
    true
}

/// Whether no two data have one scope. Compares each datum with the next where the scopes rise, and else with all those
/// behind it.
pub fn given_apart<D>(given: &[(Scope, D)]) -> bool
    ensures { IsTrue result ↔ IsDistinct (map (λ p. p.0) given.now) }
{
    if given_rise(given) {
        return true;
    }
    for i in 0..given.len() {
        let s = given[i].0;
        if is_given(&given[i + 1..], s) {
            return false;
        }
    }
    true
}

/// Whether no two unset data have one scope. Compares each with the next where the scopes rise, and else with all those
/// behind it.
pub fn holds_apart(holds: &[(u32, Scope)]) -> bool
    ensures { IsTrue result ↔ IsDistinct (map (λ k. k.1) holds.now) }
{
    if holds_rise(holds) {
        return true;
    }
    for i in 0..holds.len() {
        let s = holds[i].1;
        if is_held(&holds[i + 1..], s) {
            return false;
        }
    }
    true
}

/// Whether a datum has this scope.
fn is_given<D>(given: &[(Scope, D)], s: Scope) -> bool
    ensures { result ≡ list_any (λ p. is_scope p.0 s) given.now }
{
    given.iter().any(|p| p.0 == s)
}

/// Whether an unset datum has this scope.
fn is_held(holds: &[(u32, Scope)], s: Scope) -> bool
    ensures { result ≡ list_any (λ k. is_scope k.1 s) holds.now }
{
    holds.iter().any(|k| k.1 == s)
}

/// Whether an unset datum has this scope, by a binary search where the scopes rise.
fn finds_held(holds: &[(u32, Scope)], rising: bool, s: Scope) -> bool
    requires rising { IsTrue rising → IsRising scope_cmp (map (λ k. k.1) holds.now) }
    ensures { result ≡ list_any (λ k. is_scope k.1 s) holds.now }
{
    if rising {
        holds.binary_search_by_key(&s, |k| k.1).is_ok()
    } else {
        is_held(holds, s)
    }
}

/// Whether no datum that is given is unset. Looks for each given datum among those that are unset, by a binary search
/// where their scopes rise.
pub fn none_twice<D>(given: &[(Scope, D)], holds: &[(u32, Scope)]) -> bool
    ensures { result ≡ list_all (λ p. not (list_any (λ k. is_scope k.1 p.0) holds.now)) given.now }
{
    let rising = holds_rise(holds);
    given.iter().all(|p| !finds_held(holds, rising, p.0))
}
