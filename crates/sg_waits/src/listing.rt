use sg_state::Need;

/// A unit that waits for a need. Listings are ordered by need, then unit.
#[derive(Clone, Copy, Debug, PartialEq, Eq, PartialOrd, Ord)]
pub struct Listing {
    pub need: Need,
    pub unit: u32,
}
