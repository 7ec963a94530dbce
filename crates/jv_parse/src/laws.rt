//! What holds of all trees that derive.
ghost use Rattle.jv_parse.specs.Identifiers.{IdentifiersAreCounted, IdentifiersAreNumbered, IdentifiersAreTerminals};

/// A tree that derives from terminals has as many identifiers as stand among them: none is lost, and none is added.
pub fn identifiers_are_counted()
    ensures { IdentifiersAreCounted }
{}

/// So it has at most as many identifiers as there are terminals.
pub fn identifiers_are_terminals()
    ensures { IdentifiersAreTerminals }
{}

/// Where the identifiers among terminals have numbers of names, so have those of a tree that derives from them.
pub fn identifiers_are_numbered()
    ensures { IdentifiersAreNumbered }
{}
