//! Laws of members, each the contract of a function that does nothing.

ghost use Rattle.jv_member.specs.Bounds.{SignaturesStayIn, OwnMembersAreNumbered, MembersAskInLayout};
ghost use Rattle.jv_member.specs.Law.{SignaturesReadOnlyTheirQueries};

/// The signature of a member looks at a graph only by the queries that it asks.
pub fn signature_reads_only_its_queries()
    ensures { SignaturesReadOnlyTheirQueries }
{}

/// Whatever the answers, the signature of a member asks queries of names alone: from the root, packages, files and types of the
/// layout, never for signatures, and only for names that are numbered. Its types have types of the layout as their bases, or no
/// class.
pub fn rules_ask_in_the_layout()
    ensures { SignaturesStayIn }
{}

/// Where each identifier of a declaration is numbered, so is each of its members.
pub fn own_members_are_numbered()
    ensures { OwnMembersAreNumbered }
{}

/// Whatever the answers, even those that name scopes outside the layout, all that is checked of a type's members asks queries of the
/// layout alone: each starts at one of its scopes, is of one of the kinds, and asks for any name, or for one that is numbered.
pub fn members_ask_in_the_layout()
    ensures { MembersAskInLayout }
{}
