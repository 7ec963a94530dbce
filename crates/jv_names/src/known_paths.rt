/// What is known of the paths of an answer so far, each by its index: the last one that fits the layout, and the last member of
/// package access that is inherited.
#[derive(Clone, Copy, Debug)]
pub(crate) struct KnownPaths {
    pub fitting: Option<usize>,
    pub staying: Option<usize>,
}
