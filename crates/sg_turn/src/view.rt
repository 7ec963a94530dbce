//! What a seat knows. No value of this type is made.
use crate::stage::Stage;
use std::collections::LinkedList;

/// What the rule of the table says of a seat.
pub(crate) struct View<E, R> {
    pub stage: Stage,
    /// Seats are numbered from 0, in the order in which they were made.
    pub number: u64,
    /// The root of the value that the lock was made with, or nothing at a seat that was taken back.
    pub root: Option<R>,
    /// The value's entries when the seat last had it.
    pub seen: LinkedList<E>,
    /// The entries that the seat added, in its order.
    pub mine: LinkedList<E>,
    /// How many seats there are, at the seat that was made last, which makes the next. Else 0.
    pub made: u64,
    /// The seats that it took back, each with its number and its own entries.
    pub kept: LinkedList<(u64, LinkedList<E>)>,
}
