ghost use Rattle.std.specs.Prelude.{◌≡◌, ◌<◌, ◌^◌, ◌++◌, IfOk, OnOk};
ghost use Rattle.jv_layout.specs.Readers.{file_of};
ghost use Rattle.jv_names.specs.Bodies.{header_bodies, member_bodies};

use jv_layout::Layout;
use sg_base::Scope;
use std::alloc::{AllocError, Global};

/// Where a name stands: the number of its file, and the types whose bodies enclose it, innermost first (JLS 6.3). The header
/// of a type does not stand in its body.
#[derive(Drop)]
pub struct Spot {
    pub file: u32,
    pub inside: Vec<Scope>,
}

/// Adds the types whose bodies enclose a type.
#[tactic(auto, using(crate::proofs::Outward::outward_steps))]
fn add_enclosing(l: &Layout, inside: &mut Vec<Scope>, ty: Scope) -> Result<(), AllocError>
    ensures { OnOk result (inside.new.items ≡ inside.old.items ++ header_bodies l.now ty) }
{
    let mut left = l.types().len();
    let mut at = l.owner(ty);
    while left > 0 {
        match at {
            None => return Ok(()),
            Some(outer) => {
                inside.push(outer)?;
                at = l.owner(outer);
                left -= 1;
            }
        }
    }
    Ok(())
}

impl Spot {
    /// The place of the header of a type. It takes time in how deep the type is nested.
    pub fn of_header(alloc: Global, l: &Layout, ty: Scope) -> Result<Spot, AllocError>
        ensures file { IfOk result (λ s. s.file ≡ file_of l.now ty) }
        ensures few { IfOk result (λ s. s.file < 2 ^ 31) }
        ensures inside { IfOk result (λ s. s.inside.items ≡ header_bodies l.now ty) }
    {
        let mut inside = Vec::new(alloc);
        add_enclosing(l, &mut inside, ty)?;
        Ok(Spot {
            file: l.file_of(ty),
            inside,
        })
    }

    /// The place of what stands in the body of a type. It takes time in how deep the type is nested.
    pub fn of_body(alloc: Global, l: &Layout, ty: Scope) -> Result<Spot, AllocError>
        ensures file { IfOk result (λ s. s.file ≡ file_of l.now ty) }
        ensures few { IfOk result (λ s. s.file < 2 ^ 31) }
        ensures inside { IfOk result (λ s. s.inside.items ≡ member_bodies l.now ty) }
    {
        let mut inside = Vec::new(alloc);
        inside.push(ty)?;
        add_enclosing(l, &mut inside, ty)?;
        Ok(Spot {
            file: l.file_of(ty),
            inside,
        })
    }
}
