use sg_base::Mark;

/// Pairs are not an order: by them some mark comes before itself, and this is the least such mark, the end coming
/// first and then the labels by number.
#[derive(Clone, Copy, Debug, PartialEq, Eq)]
pub struct NotStrict {
    pub mark: Mark,
}
