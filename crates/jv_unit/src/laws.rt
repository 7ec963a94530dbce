//! Laws of what units come to, each the contract of a function that does nothing.

ghost use Rattle.jv_unit.specs.Law.{BodiesAreChecked, MembersAreChecked, UnitEndingsReadOnlyTheirQueries};

/// What a unit comes to looks at a graph only by the queries that it asks.
pub fn unit_endings_read_only_their_queries()
    ensures { UnitEndingsReadOnlyTheirQueries }
{}

/// In each graph the rule of the members of a type by its declaration comes to the diagnostics to which the checks of the type's plan
/// come: what is wrong with the declaration of each member, and then one check after another, without the types in signatures and
/// the bodies.
pub fn members_are_checked_by_one_rule()
    ensures { MembersAreChecked }
{}

/// The plan of a type checks the body and the initializer of each of its members by the rules by which they are checked by the type's
/// declaration alone.
pub fn bodies_are_checked_by_one_rule()
    ensures { BodiesAreChecked }
{}
