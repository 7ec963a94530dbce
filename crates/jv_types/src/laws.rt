//! Laws of the tables, each the contract of a function that does nothing.

ghost use Rattle.jv_types.specs.Law.{AssignableIsReflexive, AssignableIsTransitive, AssignmentIsTested, CastableIsSymmetric, CastsAreTested, PromotionIsAssociative, PromotionIsCommutative, SubtypesAreTested};

/// A type may be assigned to itself, and to all that what it may be assigned to may be assigned to, unless that is bad: where each
/// class is handed in among its own supertypes, and those of a type are among those of what is below it.
pub fn assignment_is_an_order()
    ensures reflexive { AssignableIsReflexive }
    ensures transitive { AssignableIsTransitive }
{}

/// Where one type may be cast to another, that may be cast to it.
pub fn casts_go_both_ways()
    ensures { CastableIsSymmetric }
{}

/// Neither the order of numeric operands matters, nor how they are grouped.
pub fn promotion_is_a_join()
    ensures commutative { PromotionIsCommutative }
    ensures associative { PromotionIsAssociative }
{}

/// The tests of subtypes, assignment and casts are the rules of the language (JLS 4.10, 5.2, 5.5): each holds of all types of which
/// its rules do, and of no others.
pub fn tests_are_the_relations()
    ensures subtype { SubtypesAreTested }
    ensures assignable { AssignmentIsTested }
    ensures castable { CastsAreTested }
{}
