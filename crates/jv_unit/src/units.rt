ghost use Rattle.std.specs.Prelude.{◌≡◌, ◌+◌, ◌<◌, ◌^◌, length, IfOk};
ghost use Rattle.std.specs.Arc.{arc_value};
ghost use Rattle.sg_state.specs.Opening.{opened_of};
ghost use Rattle.jv_layout.specs.Skeleton.{skeleton_of};
ghost use Rattle.jv_unit.specs.Kept.{folder_of, IsWhole};
ghost use Rattle.jv_unit.specs.Scripts.{AreNewUnits, AreUnitsOf, IsUnitOf};

use crate::folder::Folder;
use crate::java_script::JavaScript;
use sg_script::Follower;
use std::alloc::{AllocError, Global};
use std::sync::Arc;

/// The checker of a file or of a type.
pub type JavaUnit = Follower<JavaScript>;

/// The unit with a number, which has given nothing yet.
fn java_unit(alloc: Global, folder: &Arc<Folder, Global>, unit: u32) -> Result<JavaUnit, AllocError>
    requires whole { IsWhole (arc_value folder.now) }
    requires within { unit < length (arc_value folder.now).layout.files + length (arc_value folder.now).layout.types }
    ensures { IfOk result (IsUnitOf (folder_of (arc_value folder.now)) unit) }
{
    let shared = Arc::try_clone(folder)?;
    Ok(Follower::new(alloc, JavaScript::new(alloc, shared, unit)))
}

/// The units of a folder, listed by number: one for each file, in the order of files, and behind them one for each type, in the
/// order of types. They share the folder, and have given nothing yet. It takes time in their number.
pub fn java_units(alloc: Global, folder: &Arc<Folder, Global>) -> Result<Vec<JavaUnit>, AllocError>
    requires { IsWhole (arc_value folder.now) }
    ensures units { IfOk result (λ us. AreUnitsOf (folder_of (arc_value folder.now)) us.items) }
    ensures new { IfOk result (λ us. AreNewUnits (opened_of (skeleton_of (arc_value folder.now).layout)) (arc_value folder.now).kinds.value us.items) }
{
    let count = folder.file_count() + folder.type_count();
    let mut units = Vec::new(alloc);
    for unit in 0..count {
        units.push(java_unit(alloc, folder, unit)?)?;
    }
    Ok(units)
}
