//! Which paths the scopes of a layout let stand.

ghost use Rattle.std.specs.Prelude.{◌≡◌, ◌<◌, ◌≤◌, true, length};
ghost use Rattle.jv_layout.specs.Fits.{fits, front_of, may_step, is_root, is_package, is_file, is_type, is_member, is_signature, is_member_by, is_inside};

use crate::place::Place;
use crate::tables::{Layout, label_of};
use jv_instance::labels;
use sg_base::PathView;

/// Whether a scope is the root.
fn is_root(place: Place) -> bool
    ensures { result ≡ is_root place }
{
    matches!(place, Place::Root)
}

/// Whether a scope is a package.
fn is_package(place: Place) -> bool
    ensures { result ≡ is_package place }
{
    matches!(place, Place::Unnamed | Place::Package(_))
}

/// Whether a scope is a file.
fn is_file(place: Place) -> bool
    ensures { result ≡ is_file place }
{
    matches!(place, Place::File(_))
}

/// Whether a scope is a type.
fn is_type(place: Place) -> bool
    ensures { result ≡ is_type place }
{
    matches!(place, Place::Ty(_))
}

impl Layout {
    /// Whether a scope is a member whose edge has this label.
    pub fn is_member_by(&self, label: u8, place: Place) -> bool
        ensures { result ≡ is_member_by self.now label place }
    {
        match place {
            Place::Member(m) => label_of(self.member_row(m).kind).number() == label,
            _ => false,
        }
    }

    /// Whether an edge with a label may go from a scope of one kind to one of another.
    fn may_step(&self, from: Place, label: u8, to: Place) -> bool
        ensures { result ≡ may_step self.now from label to }
    {
        match label {
            labels::PKG => (is_root(from) || is_package(from)) && is_package(to),
            labels::TYPE => (is_package(from) || is_type(from)) && is_type(to),
            labels::SELF => is_file(from) && is_type(to),
            labels::SIMP => is_file(from) && is_type(to),
            labels::PKGOF => is_file(from) && is_package(to),
            labels::ODI => is_file(from) && (is_package(to) || is_type(to)),
            labels::EXT => is_type(from) && is_type(to),
            labels::FIELD | labels::METH | labels::CTOR => {
                is_type(from) && self.is_member_by(label, to)
            }
            labels::SIG => { matches!(from, Place::Member(_)) && matches!(to, Place::Signature(_)) }
            _ => false,
        }
    }

    /// Whether each scope of a path is one of the layout, and each step goes between the kinds of scopes that its label
    /// joins. It takes time in the length of the path, and no memory.
    pub fn fits(&self, p: &PathView<'_>) -> bool
        ensures { result ≡ fits self.now p.now }
    {
        if matches!(self.place(p.start()), Place::Outside) {
            return false;
        }
        self.fits_behind(p, 0)
    }

    /// The same of a path of which so many steps at its beginning are known to fit. It takes time in the number of the steps
    /// behind them, and no memory.
    pub fn fits_behind(&self, p: &PathView<'_>, known: usize) -> bool
        requires within { known ≤ length p.now.steps }
        requires front { fits self.now (front_of p.now known) ≡ true }
        ensures { result ≡ fits self.now p.now }
    {
        let mut at = p.copy();
        let mut to = self.place(at.end());
        while at.len() > known {
            if let Some((before, step)) = at.split_last() {
                let last = before.end();
                let from = self.place(last);
                if !self.may_step(from, step.label.number(), to) {
                    return false;
                }
                at = before;
                to = from;
            }
        }
        true
    }
}
