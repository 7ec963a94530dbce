use sg_base::Path;

/// A path that a query found, with the datum at its end.
#[derive(Debug, Drop)]
pub struct Found<D> {
    pub path: Path,
    pub datum: D,
}
