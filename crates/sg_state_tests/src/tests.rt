//! Small held graphs, with answers worked out by hand. What units do and what a graph is to say then stands in texts.

use crate::scripts::{Numbers, change, follow, halves, opened, opening, truth};
use sg_state::Held;
use std::test::Fail;

/// An opening of two scopes and two units: an edge, a datum at the first scope, and unit 1 holds that of the second.
const PAIR: &str = "\
units 2
scope n.0
scope n.1
edge n.0 n.1
given n.0 7
row 0 n.0
row 1 n.0
datum 1 n.1
";

/// What a unit makes, it holds.
const MAKES: &str = "\
fresh 0.0
there 0.0 = true
closed 0.0 = false
holders 0.0 = 0
holder 0.0 = 0
datum 0.0 = unset
";

/// A unit adds an edge and a datum where it holds, and another ends.
const ADDS: &str = "\
fresh 0.0
fresh 1.0
edge 0.0 1.0
row 0.0 = 1.0
row 1.0 =
whole 0.0 = open
set 0.0 7
datum 0.0 = 7
datum 1.0 = unset
close 0.0
closed 0.0 = true
closed 1.0 = false
whole 0.0 = 1.0
end 1
whole 1.0 =
closed 1.0 = true
datum 1.0 = absent
";

/// The pair as a held graph.
const HELD: &str = "\
there n.0 = true
there n.1 = true
there n.2 = false
row n.0 = n.1
holders n.0 = 0 1
closed n.1 = true
datum n.0 = 7
holder n.1 = 1
close n.0
holders n.0 = 1
closed n.0 = false
end 1
closed n.0 = true
datum n.1 = absent
";

/// What the units of the pair free, before and after one of them gives up the row.
const FREES: &str = "\
frees 0 =
frees 1 = datum:n.1
close n.0
frees 1 = row:n.0 datum:n.1
before row:n.1 datum:n.0 = true
";

/// What a copy of the pair with an edge more says.
const COPIED: &str = "\
edge n.0 n.0
copied = n.0 n.1
copied_row n.0 = n.0 n.1
copied_row n.1 =
copied_datum n.0 = 7
copied_datum n.1 = absent
";

/// Two scopes of a unit.
const RISE: &str = "\
fresh 0.0
fresh 0.1
holders 0.1 = 0
holder 0.1 = 0
room 0 = true
room 1 = false
";

/// The pair with an edge back, where a datum is set behind the edges.
const KEYED: &str = "\
keyed n.1 7 = n.0
rest n.1 =
rest n.0 = n.1
edge n.0 n.0
set n.1 7
row n.0 = n.0 n.1
keyed n.0 7 = n.0
keyed n.0 8 =
rest n.0 = n.1
";

/// Whether the pair is sound with one thing more.
const CHANGES: &str = "\
true
false scope n.0
false scope 0.2
true front n.9
false edge n.0 n.2
true edge n.0 n.1
false given n.2 1
false given n.0 1
false given n.1 1
false row 2 n.1
false row 0 n.2
false datum 0 n.1
false datum 0 n.0
false units 4294967295
";

/// Scopes of nobody out of order and with gaps, beside those that lie at their serials.
const GAPS: &str = "\
units 2
scope n.4
scope n.0
scope n.1
scope n.7
scope n.2
scope n.3
edge n.0 n.7
edge n.0 n.4
edge n.7 n.0
edge n.2 n.3
given n.3 30
given n.4 40
row 0 n.7
row 1 n.2
datum 1 n.7
";

/// What the graph with gaps says.
const FOUND: &str = "\
there n.0 = true
there n.4 = true
there n.5 = false
there n.6 = false
there n.7 = true
there n.8 = false
there 0.0 = false
row n.0 = n.4 n.7
row n.7 = n.0
row n.2 = n.3
row n.5 =
keyed n.0 40 = n.4
rest n.0 = n.7
keyed n.2 30 = n.3
rest n.7 = n.0
holders n.7 = 0
holders n.2 = 1
holders n.4 =
datum n.3 = 30
datum n.4 = 40
datum n.7 = unset
holder n.7 = 1
edge n.7 n.4
edge n.2 n.7
keyed n.7 40 = n.4
rest n.2 = n.7
set n.7 70
datum n.7 = 70
close n.7
whole n.7 = n.0 n.4
whole n.2 = open
end 1
whole n.2 = n.3 n.7
copied = n.0 n.1 n.2 n.3 n.4 n.7
copied_row n.7 = n.0 n.4
copied_datum n.7 = 70
copied_datum n.3 = 30
";

/// Scopes of units with the serials of nobody's.
const BESIDE: &str = "\
there 0.0 = false
there 1.0 = false
fresh 0.0
fresh 1.0
fresh 0.1
there 0.0 = true
there 0.1 = true
there 1.1 = false
row n.0 = n.1
row 0.0 =
edge n.0 0.0
edge 0.0 n.1
edge 0.0 1.0
set 0.0 5
row n.0 = 0.0 n.1
rest n.0 = 0.0 n.1
row 0.0 = 1.0 n.1
rest 0.0 = 1.0 n.1
edge 0.1 0.0
keyed 0.1 5 = 0.0
holders n.0 = 0 1
holders 0.0 = 0
holders 1.0 = 1
datum n.0 = 7
datum 0.0 = 5
datum 1.0 = unset
end 0
holders n.0 = 1
whole 0.0 = 1.0 n.1
whole 1.0 = open
copied = 0.0 0.1 1.0 n.0 n.1
";

/// A row with forty keys, of which some get a second target, and one target has none.
const FAN: &str = "\
keyed n.0 1 = n.1
keyed n.0 15 = n.15
keyed n.0 16 = n.16
keyed n.0 17 = n.17
keyed n.0 40 = n.40
keyed n.0 41 =
keyed n.1 1 =
rest n.0 =
fresh 0.0
fresh 0.1
fresh 0.2
set 0.0 17
set 0.1 3
edge n.0 0.0
edge n.0 0.1
edge n.0 0.2
edge n.0 0.2
keyed n.0 17 = 0.0 n.17
keyed n.0 3 = 0.1 n.3
keyed n.0 16 = n.16
rest n.0 = 0.2
set 0.2 40
keyed n.0 40 = n.40
rest n.0 = 0.2
";

#[test]
fn scopes_with_gaps_are_found(rt: HostRuntime) -> Result<(), Fail> {
    let mut held = opened(rt.alloc(), opening(rt.alloc(), GAPS)?)?;
    follow(rt.alloc(), &mut held, FOUND)
}

#[test]
fn scopes_of_units_stand_beside_those_of_nobody(rt: HostRuntime) -> Result<(), Fail> {
    let mut held = opened(rt.alloc(), opening(rt.alloc(), PAIR)?)?;
    follow(rt.alloc(), &mut held, BESIDE)
}

#[test]
fn a_row_has_many_keys(rt: HostRuntime) -> Result<(), Fail> {
    let mut o = opening(rt.alloc(), "units 1\nfan 40")?;
    change(&mut o, "row 0 n.0")?;
    let mut held = opened(rt.alloc(), o)?;
    follow(rt.alloc(), &mut held, FAN)
}

#[test]
fn a_unit_holds_what_it_makes(rt: HostRuntime) -> Result<(), Fail> {
    let mut held = Held::<Numbers>::new(rt.alloc(), 2)?;
    follow(rt.alloc(), &mut held, MAKES)
}

#[test]
fn a_unit_adds_where_it_holds(rt: HostRuntime) -> Result<(), Fail> {
    let mut held = Held::<Numbers>::new(rt.alloc(), 2)?;
    follow(rt.alloc(), &mut held, ADDS)
}

#[test]
fn what_is_sound(rt: HostRuntime) -> Result<(), Fail> {
    for line in CHANGES.lines() {
        let (sound, more) = halves(line, ' ');
        let mut o = opening(rt.alloc(), PAIR)?;
        change(&mut o, more)?;
        if o.is_sound() != truth(sound)? {
            return Err(Fail::new(line));
        }
    }
    Ok(())
}

#[test]
fn an_opening_is_held(rt: HostRuntime) -> Result<(), Fail> {
    let mut held = opened(rt.alloc(), opening(rt.alloc(), PAIR)?)?;
    follow(rt.alloc(), &mut held, HELD)
}

#[test]
fn what_a_unit_frees(rt: HostRuntime) -> Result<(), Fail> {
    let mut held = opened(rt.alloc(), opening(rt.alloc(), PAIR)?)?;
    follow(rt.alloc(), &mut held, FREES)
}

#[test]
fn serials_rise(rt: HostRuntime) -> Result<(), Fail> {
    let mut held = Held::<Numbers>::new(rt.alloc(), 1)?;
    follow(rt.alloc(), &mut held, RISE)
}

#[test]
fn a_graph_is_copied(rt: HostRuntime) -> Result<(), Fail> {
    let mut held = opened(rt.alloc(), opening(rt.alloc(), PAIR)?)?;
    follow(rt.alloc(), &mut held, COPIED)
}

#[test]
fn a_target_is_keyed_by_the_datum_that_it_has(rt: HostRuntime) -> Result<(), Fail> {
    let mut o = opening(rt.alloc(), PAIR)?;
    change(&mut o, "edge n.1 n.0")?;
    let mut held = opened(rt.alloc(), o)?;
    follow(rt.alloc(), &mut held, KEYED)
}
