//! The entries of a log, unit by unit.

ghost use Rattle.std.specs.Prelude.{◌≡◌, ◌+◌, ◌-◌, ◌<◌, ◌≤◌, ◌^◌, [], length, All, IfOk, map};
ghost use Rattle.std.specs.List.{range_with_len};
ghost use Rattle.jv_layout.specs.Readers.{types_of};
ghost use Rattle.sc_listing.specs.Answers.{unit_of};
ghost use Rattle.sc_listing.specs.ByUnit.{own_entries};
ghost use Rattle.sc_listing.specs.Listed.{listed_of};
ghost use Rattle.sc_listing.specs.Titles.{listed_files};

use crate::listed::Listed;
use jv_diag::DiagList;
use jv_instance::Java;
use jv_layout::Layout;
use sg_base::Scope;
use sg_unit::Entry;
use std::alloc::{AllocError, Global};

/// The number of the unit that checks a file or a type; 0 for what stands in front of them.
pub(crate) fn unit_of(layout: &Layout, s: Scope) -> u32
    ensures { result ≡ unit_of layout.now s }
{
    s.serial.saturating_sub(layout.file_scope(0).serial)
}

/// A number above those of all units of the folder's own files and of its types.
pub(crate) fn unit_count(w: &Listed<'_>) -> usize
    requires { length w.now.files.now + 2 ≤ 2 ^ 31 }
    ensures files { All (λ s. unit_of w.now.layout.now s < result) (listed_files (listed_of w.now)) }
    ensures types { All (λ s. unit_of w.now.layout.now s < result) (types_of w.now.layout.now) }
{
    let files = 2 + w.files.len();
    match w.layout.types().last() {
        Some(last) => files + 1 + unit_of(w.layout, *last) as usize,
        None => files,
    }
}

/// So many lists with nothing in them.
fn empty_lists<'a>(
    alloc: Global,
    count: usize,
) -> Result<Vec<Vec<&'a Entry<Java, DiagList>>>, AllocError>
    ensures { IfOk result (λ v. map (λ x. map (λ e. e.now) x.items) v.items ≡ own_entries count []) }
{
    let mut lists = Vec::new(alloc);
    for _ in 0..count {
        lists.push(Vec::new(alloc))?;
    }
    Ok(lists)
}

/// The entries of each of so many units, in one pass over the log.
pub(crate) fn by_unit<'a>(
    alloc: Global,
    count: usize,
    log: &'a [Entry<Java, DiagList>],
) -> Result<Vec<Vec<&'a Entry<Java, DiagList>>>, AllocError>
    ensures { IfOk result (λ v. map (λ x. map (λ e. e.now) x.items) v.items ≡ own_entries count log.now) }
{
    let mut lists = empty_lists(alloc, count)?;
    for entry in log {
        let unit = entry.unit as usize;
        if unit < lists.len() {
            lists[unit].push(entry)?;
        }
    }
    Ok(lists)
}
