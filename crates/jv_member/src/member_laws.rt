//! Laws of what is checked of members, each the contract of a function that does nothing.

ghost use Rattle.jv_member.specs.MemberLaws.{MembersReadOnlyTheirQueries};

/// What is checked of a type's members looks at a graph only by the queries that it asks.
pub fn members_read_only_their_queries()
    ensures { MembersReadOnlyTheirQueries }
{}
