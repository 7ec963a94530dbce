//! The names of labels and of kinds of queries.

ghost use Rattle.std.specs.Prelude.{◌≡◌};
ghost use Rattle.sc_listing.specs.Questions.{kind_name, label_name};

use jv_instance::labels;
use jv_names::kinds;

/// The name of a label.
pub(crate) fn label_name(label: u8) -> &'static str
    ensures { result.now ≡ label_name label }
{
    match label {
        labels::PKG => "PKG",
        labels::TYPE => "TYPE",
        labels::SELF => "SELF",
        labels::SIMP => "SIMP",
        labels::PKGOF => "PKGOF",
        labels::ODI => "ODI",
        labels::EXT => "EXT",
        labels::FIELD => "FIELD",
        labels::METH => "METH",
        labels::CTOR => "CTOR",
        labels::SIG => "SIG",
        _ => "",
    }
}

/// The name of a kind of queries.
pub(crate) fn kind_name(kind: u8) -> &'static str
    ensures { result.now ≡ kind_name kind }
{
    match kind {
        kinds::SUBPKG => "SUBPKG",
        kinds::OWNTYPE => "OWNTYPE",
        kinds::MEMTYPE => "MEMTYPE",
        kinds::FILETYPE => "FILETYPE",
        kinds::FIELDS => "FIELDS",
        kinds::METHODS => "METHODS",
        kinds::ABOVE => "ABOVE",
        kinds::CTORS => "CTORS",
        kinds::SIG => "SIG",
        kinds::SUPERS => "SUPERS",
        _ => "",
    }
}
