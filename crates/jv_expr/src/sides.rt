//! What is known of two types that are compared.

ghost use Rattle.std.specs.Prelude.{◌≡◌, IfOk};
ghost use Rattle.sg_reading.specs.Stop.{Reads};
ghost use Rattle.jv_layout.specs.Readers.{object_scope};
ghost use Rattle.jv_names.specs.Replies.{reply_to};
ghost use Rattle.jv_types.specs.Conversion.{is_class, is_class_base};
ghost use Rattle.jv_types.specs.Side.{side_of};
ghost use Rattle.jv_expr.specs.Conversions.{are_known, asks_supers, bare_sides, base_supers, is_below_object, is_final_base, is_interface_base, known_sides, known_supers, second_side, side, sides};

use crate::need::Need;
use jv_instance::{Ty, TypeBase};
use jv_layout::Layout;
use jv_names::{Oracle, ScopeList, read_supers};
use jv_types::{Side, assignable, is_type};
use std::alloc::{AllocError, Global};
use std::marker::Model;

/// A type with the supertypes of its class, and whether that is an interface and whether it is final.
#[derive(Debug, Drop)]
pub struct OwnSide {
    pub ty: Ty,
    pub up: ScopeList,
    pub interface: bool,
    pub is_final: bool,
}

impl Model for OwnSide {
    ghost use Rattle.jv_types.specs.Conversion.{SideOf};

    ghost Value = { SideOf };

    ghost view = { λ s. record { ty = s.ty; up = s.up; interface = s.interface; is_final = s.is_final } };
}

impl OwnSide {
    /// The same as the tables of types take it.
    pub(crate) fn as_side(&self) -> Side<'_>
        ensures { side_of result ≡ self.now }
    {
        Side {
            ty: self.ty,
            up: self.up.as_slice(),
            interface: self.interface,
            is_final: self.is_final,
        }
    }

    /// The type.
    pub(crate) fn ty(&self) -> Ty
        ensures { result ≡ self.now.ty }
    {
        self.ty
    }
}

/// Two types that are compared.
#[derive(Debug, Drop)]
pub struct Pair {
    pub left: OwnSide,
    pub right: OwnSide,
}

impl Model for Pair {
    ghost use Rattle.jv_types.specs.Conversion.{SideOf};

    ghost Value = { SideOf × SideOf };

    ghost view = { λ p. (p.left, p.right) };
}

/// Whether a base is a class or an interface.
fn is_class_base(base: TypeBase) -> bool
    ensures { result ≡ is_class_base base }
{
    matches!(base, TypeBase::Class(_))
}

/// Whether a base is the class `Object`.
fn is_object(l: &Layout, base: TypeBase) -> bool
    ensures { result ≡ is_class (object_scope l.now) base }
{
    match base {
        TypeBase::Class(class) => class == l.object(),
        _ => false,
    }
}

/// Whether these are an interface and `Object`.
fn is_below_object(l: &Layout, base: TypeBase, above: TypeBase) -> bool
    ensures { result ≡ is_below_object l.now base above }
{
    is_interface_base(l, base) && is_object(l, above)
}

/// Whether two types are compared without supertypes.
fn are_known(l: &Layout, from: Ty, to: Ty) -> bool
    ensures { result ≡ are_known l.now from to }
{
    is_type(from, to)
        || (is_below_object(l, from.base, to.base) || is_below_object(l, to.base, from.base))
}

/// Whether these are two classes under as many brackets, of which the supertypes decide.
pub(crate) fn asks_supers(l: &Layout, from: Ty, to: Ty) -> bool
    ensures { result ≡ asks_supers l.now from to }
{
    from.dims == to.dims
        && (is_class_base(from.base) && (is_class_base(to.base) && !are_known(l, from, to)))
}

/// The supertypes of a class with itself; other types have none.
#[tactic(auto, using(sg_reading::proofs::Steps::reading_steps))]
pub(crate) fn base_supers(
    alloc: Global,
    l: &Layout,
    o: &Oracle,
    base: TypeBase,
) -> Result<ScopeList, Need>
    ensures { Reads (reply_to o.now) (base_supers l.now base) result }
{
    match base {
        TypeBase::Class(class) => read_supers(alloc, l, o, class),
        _ => Ok(ScopeList::empty(alloc)),
    }
}

/// The supertypes that are known of a class without a query: `Object` of an interface.
pub(crate) fn known_supers(
    alloc: Global,
    l: &Layout,
    base: TypeBase,
) -> Result<ScopeList, AllocError>
    ensures { IfOk result (λ up. up ≡ known_supers l.now base) }
{
    let mut known = ScopeList::empty(alloc);
    if is_interface_base(l, base) {
        known.push(l.object())?;
    }
    Ok(known)
}

/// Whether the class of a base is an interface.
fn is_interface_base(l: &Layout, base: TypeBase) -> bool
    ensures { result ≡ is_interface_base l.now base }
{
    match base {
        TypeBase::Class(class) => l.is_interface(class),
        _ => false,
    }
}

/// Whether the class of a base is final.
fn is_final_base(l: &Layout, base: TypeBase) -> bool
    ensures { result ≡ is_final_base l.now base }
{
    match base {
        TypeBase::Class(class) => l.is_final(class),
        _ => false,
    }
}

/// A type with these supertypes of its class.
fn side(l: &Layout, up: ScopeList, ty: Ty) -> OwnSide
    ensures { result ≡ side l.now up ty }
{
    OwnSide {
        ty,
        up,
        interface: is_interface_base(l, ty.base),
        is_final: is_final_base(l, ty.base),
    }
}

/// Both as they are known without supertypes.
pub(crate) fn bare_sides(alloc: Global, l: &Layout, from: Ty, to: Ty) -> Pair
    ensures { result ≡ bare_sides l.now from to }
{
    Pair {
        left: side(l, ScopeList::empty(alloc), from),
        right: side(l, ScopeList::empty(alloc), to),
    }
}

/// Both with the supertypes that are known without a query.
fn known_sides(alloc: Global, l: &Layout, from: Ty, to: Ty) -> Result<Pair, AllocError>
    ensures { IfOk result (λ p. p ≡ known_sides l.now from to) }
{
    let up = known_supers(alloc, l, from.base)?;
    let more = known_supers(alloc, l, to.base)?;
    Ok(Pair {
        left: side(l, up, from),
        right: side(l, more, to),
    })
}

/// Both, with the supertypes of the first; and with those of the second, where the first is not assignable to it.
#[tactic(auto, using(sg_reading::proofs::Steps::reading_steps))]
fn second_side(
    alloc: Global,
    l: &Layout,
    o: &Oracle,
    from: Ty,
    to: Ty,
    up: ScopeList,
) -> Result<Pair, Need>
    ensures { Reads (reply_to o.now) (second_side l.now from to up) result }
{
    if assignable(from, to, up.as_slice(), l.object()) {
        return Ok(Pair {
            left: side(l, up, from),
            right: side(l, ScopeList::empty(alloc), to),
        });
    }
    let more = base_supers(alloc, l, o, to.base)?;
    Ok(Pair {
        left: side(l, up, from),
        right: side(l, more, to),
    })
}

/// Two types with what decides whether one may be cast to the other (JLS 5.5).
#[tactic(auto, using(sg_reading::proofs::Steps::reading_steps), unfolding(crate::specs::Conversions::sides))]
pub(crate) fn read_sides(
    alloc: Global,
    l: &Layout,
    o: &Oracle,
    from: Ty,
    to: Ty,
) -> Result<Pair, Need>
    ensures { Reads (reply_to o.now) (sides l.now from to) result }
{
    if !asks_supers(l, from, to) {
        let known = known_sides(alloc, l, from, to)?;
        return Ok(known);
    }
    let up = base_supers(alloc, l, o, from.base)?;
    second_side(alloc, l, o, from, to, up)
}
