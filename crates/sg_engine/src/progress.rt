/// What an advance answers: that it explored all that one advance may and an item that is not blocked is left, that each
/// item left is blocked, or that the answer is known.
#[derive(Clone, Copy, Debug, PartialEq, Eq)]
pub enum Progress {
    Moved,
    Blocked,
    Ready,
}
