//! Values that carry their history.
ghost use Rattle.std.specs.Prelude.{ℕ, ◌<◌, ◌^◌, List, length};

/// A value with a list of entries, each told by the seat of one number, and a root that no turn may change.
///
/// The list has fewer than 2^63 entries, so that the tickets of a lock, of which each seat draws at most one more than it
/// adds entries, fit 64 bits.
pub trait Storied {
    type Entry;

    type Root;

    // The history, oldest entry first.
    ghost entries: { Self → List Self.Entry };

    ghost root: { Self → Self.Root };

    // The number of the seat that told the entry.
    ghost teller: { Self.Entry → ℕ };

    ghost few: { (x : Self) → length (entries x) < 2 ^ 63 };
}
