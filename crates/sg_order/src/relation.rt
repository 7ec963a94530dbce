//! Relations of marks as rows of bits: row `i` has bit `j` where mark `i` comes before mark `j`.

ghost use Rattle.std.specs.Prelude.{◌≡◌, ℕ, ◌<◌, ◌⊎◌, ◌↔◌, length};
ghost use Rattle.sg_base.specs.declared.mark.Mark.{Mark as MarkOf};
ghost use Rattle.sg_order.specs.Mark.{Precedes, mark_number};
ghost use Rattle.sg_order.specs.Order.{RowHas};

use sg_base::{Label, Mark};

/// How many marks there are: the end and 16 labels.
pub const MARKS: usize = 17;

/// The number of a mark: 0 for the end, and one more than the label's number for a label.
pub fn number_of(m: Mark) -> usize
    ensures value { result ≡ mark_number m }
    ensures below { result < 17 }
{
    match m {
        Mark::End => 0,
        Mark::Of(l) => usize::from(l.number()) + 1,
    }
}

/// The mark with a number.
pub fn mark_at(i: usize) -> Mark
    requires { i < 17 }
    ensures { mark_number result ≡ i }
{
    if i == 0 {
        Mark::End
    } else {
        Mark::Of(Label::new((i - 1) as u8))
    }
}

/// Adds one pair to rows that are a transitive relation.
fn add(rows: &mut [u32; MARKS], from: usize, to: usize)
    requires from { from < 17 }
    requires to { to < 17 }
    ensures { (i j : ℕ) → (RowHas rows.new i j) ↔ (RowHas rows.old i j ⊎ ((i ≡ from ⊎ RowHas rows.old i from) × (j ≡ to ⊎ RowHas rows.old to j))) }
{
    let behind = rows[to] | (1 << to);
    for i in 0..MARKS {
        if i == from || (rows[i] >> from) & 1 == 1 {
            rows[i] |= behind;
        }
    }
}

/// The transitive closure of the pairs.
pub fn closure(pairs: &[(Mark, Mark)]) -> [u32; MARKS]
    ensures exact { (a b : MarkOf) → (RowHas result (mark_number a) (mark_number b)) ↔ (Precedes pairs.now a b) }
    ensures size { length result ≡ 17 }
{
    let mut rows = [0; MARKS];
    for pair in pairs {
        let (before, after) = *pair;
        add(&mut rows, number_of(before), number_of(after));
    }
    rows
}
