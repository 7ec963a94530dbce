//! Static fields that a file's static imports bring (JLS 7.5.3, 7.5.4).

ghost use Rattle.std.specs.Prelude.{◌<◌, ◌^◌, true};
ghost use Rattle.sg_reading.specs.Reading.{done, and_then};
ghost use Rattle.sg_reading.specs.Stop.{Reads};
ghost use Rattle.jv_names.specs.declared.static_kind.StaticKind.TheVariants.{Fields};
ghost use Rattle.jv_names.specs.Replies.{reply_to};
ghost use Rattle.jv_names.specs.Statics.{static_members};
ghost use Rattle.jv_expr.specs.declared.found_field.FoundField.TheVariants.{Nowhere};
ghost use Rattle.jv_expr.specs.Variables.{imported_field, in_import};

use crate::found_field::FoundField;
use crate::imported_meaning::brought_meaning;
use crate::need::Need;
use jv_layout::Layout;
use jv_names::{Meaning, Oracle, StaticKind, read_static_members};
use jv_tree::NameId;
use std::alloc::Global;

/// A static field that imports on demand bring.
#[tactic(auto, using(crate::proofs::ImportedSteps::imported_field_steps))]
fn read_on_demand_field(
    alloc: Global,
    l: &Layout,
    o: &Oracle,
    file: u32,
    name: NameId,
) -> Result<FoundField, Need>
    requires { file < 2 ^ 31 }
    ensures { Reads (reply_to o.now) (and_then (static_members l.now file true Fields name) (λ a. in_import a (done Nowhere))) result }
{
    let brought = read_static_members(alloc, l, o, file, true, StaticKind::Fields, name)?;
    match brought_meaning(&brought) {
        Meaning::One(field) => Ok(FoundField::Imported(field)),
        Meaning::Nothing => Ok(FoundField::Nowhere),
        Meaning::Ambiguous => Ok(FoundField::Several),
        Meaning::TooMany => Ok(FoundField::TooMany),
    }
}

/// A static field that single static imports of a file bring, and else one that those on demand bring. It takes the time of the
/// answers, and looks at each static import of the file.
#[tactic(auto, using(crate::proofs::ImportedSteps::imported_field_steps), unfolding(crate::specs::Variables::imported_field))]
pub(crate) fn read_imported_field(
    alloc: Global,
    l: &Layout,
    o: &Oracle,
    file: u32,
    name: NameId,
) -> Result<FoundField, Need>
    requires { file < 2 ^ 31 }
    ensures { Reads (reply_to o.now) (imported_field l.now file name) result }
{
    let brought = read_static_members(alloc, l, o, file, false, StaticKind::Fields, name)?;
    match brought_meaning(&brought) {
        Meaning::One(field) => Ok(FoundField::Imported(field)),
        Meaning::Nothing => read_on_demand_field(alloc, l, o, file, name),
        Meaning::Ambiguous => Ok(FoundField::Several),
        Meaning::TooMany => Ok(FoundField::TooMany),
    }
}
