use crate::need_list::NeedList;

/// How a unit stands: it has ended, it runs, or it waits for one of its needs to go.
#[derive(Drop)]
pub enum Status {
    Ended,
    Runs,
    Waits(NeedList),
}
