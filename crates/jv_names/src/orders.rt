//! Which labels come before which in the paths of kinds of queries.

ghost use Rattle.std.specs.Prelude.{◌≡◌, ◌≢◌, ◌<◌, [], ◌∷◌};
ghost use Rattle.sg_base.specs.declared.mark.Mark.{Mark as MarkOf};
ghost use Rattle.sg_base.specs.declared.mark.Mark.TheVariants.{Of};
ghost use Rattle.sg_order.specs.Order.{precedes};
ghost use Rattle.jv_instance.specs.declared.labels.TheConstants.{SELF, SIMP, PKGOF, ODI};
ghost use Rattle.jv_names.specs.Kinds.{mark_before};

use jv_instance::labels;
use sg_base::{Label, Mark};
use sg_order::Order;

/// One label before another.
fn pair(first: u8, second: u8) -> (Mark, Mark)
    requires first { first < 16 }
    requires second { second < 16 }
    ensures { result ≡ (Of first, Of second) }
{
    (Mark::Of(Label::new(first)), Mark::Of(Label::new(second)))
}

/// No label comes before another.
pub fn no_order() -> Order
    ensures { (a b : MarkOf) → precedes result a b ≡ mark_before [] a b }
{
    match Order::new(&[]) {
        Ok(order) => order,
        Err(_) => unreachable!(),
    }
}

/// One label comes before another.
pub fn in_order(first: u8, second: u8) -> Order
    requires first { first < 16 }
    requires second { second < 16 }
    requires apart { first ≢ second }
    ensures { (a b : MarkOf) → precedes result a b ≡ mark_before (first ∷ second ∷ []) a b }
{
    match Order::new(&[pair(first, second)]) {
        Ok(order) => order,
        Err(_) => unreachable!(),
    }
}

/// A file's own types come before those that it imports by name, these before those of its package, and these before those
/// that it imports on demand (JLS 6.4.1).
pub fn file_order() -> Order
    ensures { (a b : MarkOf) → precedes result a b ≡ mark_before (SELF ∷ SIMP ∷ PKGOF ∷ ODI ∷ []) a b }
{
    let pairs = [
        pair(labels::SELF, labels::SIMP),
        pair(labels::SELF, labels::PKGOF),
        pair(labels::SELF, labels::ODI),
        pair(labels::SIMP, labels::PKGOF),
        pair(labels::SIMP, labels::ODI),
        pair(labels::PKGOF, labels::ODI),
    ];
    match Order::new(&pairs) {
        Ok(order) => order,
        Err(_) => unreachable!(),
    }
}
