//! Laws of layouts, each the contract of a function that does nothing.

ghost use Rattle.jv_layout.specs.Examples.{OneClass, TwoFiles};
ghost use Rattle.jv_layout.specs.Laws.{ScopesHavePlaces, SkeletonsAreSound, SkeletonsFit};

/// The root, the unnamed package, packages, files, types, members and signatures are the scopes of a layout, each kind in
/// the order of its rows: a scope has a place exactly if it stands for that row.
pub fn scopes_have_places()
    ensures { ScopesHavePlaces }
{}

/// A run may begin with the opening of a layout whose rows name one another and which has fewer than 2^31 scopes: its
/// scopes are distinct and nobody's, each scope that it names is listed, a scope has one datum at most, given or held,
/// holders are units, and there are fewer units than nobody's number.
pub fn skeletons_are_sound()
    ensures { SkeletonsAreSound }
{}

/// Each edge of the opening of a layout whose rows name one another goes between scopes of the layout, of the kinds that
/// its label joins.
pub fn skeletons_fit()
    ensures { SkeletonsFit }
{}

/// Two small layouts have these openings: one class with a field, and two files with packages, a nested class and
/// duplicates.
pub fn examples_have_skeletons()
    ensures one_class { OneClass }
    ensures two_files { TwoFiles }
{}
