//! Where a seat stands. No value of this type is made.

/// A seat is outside until it draws a ticket, then waits for its ticket, then is inside with the value, and outside again.
pub(crate) enum Stage {
    Outside,
    /// It has drawn this ticket.
    Drawn(u64),
    /// Its ticket is served, and it has the value.
    Inside(u64),
    /// It gave the value back with no entry of its own.
    Spent,
    /// Another seat took it back.
    Joined,
}
