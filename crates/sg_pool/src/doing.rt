/// What comes next for a unit.
#[derive(Clone, Copy, Debug, Drop)]
pub enum Doing {
    /// It gives its next operation.
    Gives,
    /// Its ask goes on.
    Advances,
    /// The answer of its ask is taken.
    Takes,
    /// Nothing.
    HasEnded,
}
