use sg_base::Label;

/// What is left to look at: a next label of a node's path, or the datum at its end.
#[derive(Clone, Copy, Debug)]
pub enum Work {
    Next(usize, Label),
    Whole(usize),
}
