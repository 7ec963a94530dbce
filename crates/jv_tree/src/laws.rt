//! What holds of all trees, and what their shape lets through.

ghost use Rattle.jv_tree.specs.Numbered.{NumbersStay};
ghost use Rattle.jv_tree.specs.Shaped.{ShapesAreToldApart, TypesAreToldApart};
ghost use Rattle.jv_tree.specs.Spine.{SpinesAreOne};

/// A type with 200 pairs of brackets is one, and `void` and a type with 201 are none.
pub fn types_are_told_apart()
    ensures { TypesAreToldApart }
{}

/// A file may be empty; the body of a loop declares no variable, the head of a `for` has no `;` alone, a chain has
/// operators of one level, an interface has no constructor, and an import of one identifier is static only on demand.
pub fn shapes_are_told_apart()
    ensures { ShapesAreToldApart }
{}

/// A tree whose identifiers have numbers of names has so too where there are more names.
pub fn numbers_stay()
    ensures { NumbersStay }
{}

/// An expression has one spine.
pub fn spines_are_one()
    ensures { SpinesAreOne }
{}
