use std::collections::LinkedList;

/// What a pass knows: its parts of the right to know the whole, the tasks that were given by it and taken by it, and whether
/// it has the board (`boards` is then 1). No value of it is made.
pub struct WorkerView {
    pub parts: u64,
    pub given: LinkedList<u32>,
    pub taken: LinkedList<u32>,
    pub boards: u64,
}
