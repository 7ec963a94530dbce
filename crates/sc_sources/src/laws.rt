//! Laws of sources, each the contract of a function that does nothing.

ghost use Rattle.sc_sources.specs.Law.{SourcesAreReadOnce, PreludeIsRead};

/// The sources of a folder come to one list of trees and faults, and the prelude's come to trees.
pub fn sources_are_read_once()
    ensures once { SourcesAreReadOnce }
    ensures prelude { PreludeIsRead }
{}
