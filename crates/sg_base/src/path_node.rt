use crate::step::Step;

/// A path as another path with one more step: the place of that path, the step, and how many steps there are then.
#[derive(Clone, Copy, Debug)]
pub(crate) struct PathNode {
    pub parent: usize,
    pub step: Step,
    pub len: usize,
}
