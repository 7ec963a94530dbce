/// A scope: the unit that made it, and its number there. Scopes are ordered by unit, then serial.
#[derive(Clone, Copy, Debug, PartialEq, Eq, PartialOrd, Ord, Hash)]
pub struct Scope {
    pub unit: u32,
    pub serial: u32,
}
