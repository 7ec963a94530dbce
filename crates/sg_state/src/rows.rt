ghost use Rattle.std.specs.Prelude.{◌≡◌, ◌<◌, ◌==◌, nat_lt, [], ◌∷◌, None, Some, length, vec_capacity, IfSome, IfNone, OnOk, OnErr};
ghost use Rattle.std.specs.List.{position, position_or_len};
ghost use Rattle.std.specs.Borrow.{sem};
ghost use Rattle.std.specs.BTreeMap.{is_at, insert_entry};
ghost use Rattle.std.specs.Map.{lookup};
ghost use Rattle.std.specs.Option.{option_copied};
ghost use Rattle.std.specs.Ordering.{nat_cmp};

use crate::row::Row;
use std::alloc::{AllocError, Global};
use std::{mem, slice};

/// The rows of a scope by the numbers of their labels, in rising order. One row lies in the value itself, and more of them
/// in an allocation of their number.
#[derive(Drop)]
pub enum Rows {
    None,
    One((u8, Row)),
    Many(Vec<(u8, Row)>),
}

/// Where the row of a label lies, by a look at each row.
fn row_at(rows: &[(u8, Row)], label: u8) -> Option<usize>
    ensures { result ≡ position (λ r. r.0 == label) rows.now }
{
    rows.iter().position(|r| r.0 == label)
}

/// Where the first row above a label lies, by a look at each row.
fn row_above(rows: &[(u8, Row)], label: u8) -> Option<usize>
    ensures { result ≡ position (λ r. nat_lt label r.0) rows.now }
{
    rows.iter().position(|r| label < r.0)
}

/// How many rows come before the first one above a label.
fn rows_below(rows: &[(u8, Row)], label: u8) -> usize
    ensures { result ≡ position_or_len (λ r. nat_lt label r.0) rows.now }
{
    match row_above(rows, label) {
        Some(at) => at,
        None => rows.len(),
    }
}

/// Two rows of different labels, in a vector with room for both.
fn pair(mut rows: Vec<(u8, Row)>, l: u8, first: Row, label: u8, row: Row) -> Vec<(u8, Row)>
    requires room { vec_capacity rows ≡ 2 }
    requires empty { rows.items ≡ [] }
    requires new { lookup (is_at (nat_cmp label)) ((l, first) ∷ []) ≡ None }
    ensures { result.items ≡ insert_entry nat_cmp ((l, first) ∷ []) label row }
{
    if l < label {
        rows.push_reserved((l, first));
        rows.push_reserved((label, row));
    } else {
        rows.push_reserved((label, row));
        rows.push_reserved((l, first));
    }
    rows
}

impl Rows {
    ghost use Rattle.sg_state.specs.Rows.{LendsRow, rows_of, row_in, IsRowAt};

    /// The rows with the numbers of their labels.
    pub fn as_slice(&self) -> &[(u8, Row)]
        ensures { result.now ≡ rows_of self.now }
    {
        match self {
            Rows::None => &[],
            Rows::One(row) => slice::from_ref(row),
            Rows::Many(rows) => rows.as_slice(),
        }
    }

    /// The row of a label, if there is one, by a look at each of at most sixteen rows.
    pub fn row(&self, label: u8) -> Option<&Row>
        ensures { option_copied result ≡ lookup (is_at (nat_cmp label)) (rows_of self.now) }
    {
        let rows = self.as_slice();
        match row_at(rows, label) {
            Some(at) => Some(&rows[at].1),
            None => None,
        }
    }

    /// Where the row of a label lies, if there is one, by a look at each of at most sixteen rows.
    pub fn find(&self, label: u8) -> Option<usize>
        ensures found { IfSome result (IsRowAt self.now label) }
        ensures none { IfNone result (lookup (is_at (nat_cmp label)) (rows_of self.now) ≡ None) }
    {
        row_at(self.as_slice(), label)
    }

    /// The row that lies at a place.
    pub fn row_mut(&mut self, at: usize) -> &mut Row
        requires there { at < length (rows_of self.old) }
        ensures* writes_back { sem 𝓛 (LendsRow self.entry at result) }
        ensures value { row_in self.old at ≡ Some result.now }
    {
        match self {
            Rows::None => unreachable!(),
            Rows::One(one) => &mut one.1,
            Rows::Many(rows) => &mut rows[at].1,
        }
    }

    /// Adds the row of a label that has none. The rows above it are moved by one place.
    pub fn insert(&mut self, alloc: Global, label: u8, row: Row) -> Result<(), AllocError>
        requires new { lookup (is_at (nat_cmp label)) (rows_of self.old) ≡ None }
        ensures ok { OnOk result (rows_of self.new ≡ insert_entry nat_cmp (rows_of self.old) label row) }
        ensures err { OnErr result (rows_of self.new ≡ rows_of self.old) }
    {
        match self {
            Rows::None => {
                *self = Rows::One((label, row));
                Ok(())
            }
            Rows::One(_) => {
                let rows = Vec::with_capacity(alloc, 2)?;
                if let Rows::One((l, first)) = mem::replace(self, Rows::None) {
                    *self = Rows::Many(pair(rows, l, first, label, row));
                }
                Ok(())
            }
            Rows::Many(rows) => {
                rows.reserve_exact(1)?;
                let at = rows_below(rows, label);
                rows.insert(at, (label, row))?;
                Ok(())
            }
        }
    }
}
