/// A path that was found, by its place in a tree of paths, with the datum at its end.
#[derive(Debug, Drop)]
pub struct FoundAt<D> {
    pub place: usize,
    pub datum: D,
}
