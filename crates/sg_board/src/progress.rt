/// What a step of a task told: it goes on, it goes on and would rather be behind the others, it waits until it is woken, no step
/// is left of it, or every task is to stop.
#[derive(Clone, Copy, Debug, Drop)]
pub enum Progress {
    Goes,
    Rests,
    Waits,
    Ended,
    StopsAll,
}

impl Progress {
    /// Whether the task goes on, and need not be behind the others.
    pub(crate) fn goes(self) -> bool {
        match self {
            Progress::Goes => true,
            Progress::Rests => false,
            Progress::Waits => false,
            Progress::Ended => false,
            Progress::StopsAll => false,
        }
    }

    /// Whether the task goes on, and would rather be behind the others.
    pub(crate) fn rests(self) -> bool {
        match self {
            Progress::Goes => false,
            Progress::Rests => true,
            Progress::Waits => false,
            Progress::Ended => false,
            Progress::StopsAll => false,
        }
    }

    /// Whether every task is to stop.
    pub(crate) fn stops_all(self) -> bool {
        match self {
            Progress::Goes => false,
            Progress::Rests => false,
            Progress::Waits => false,
            Progress::Ended => false,
            Progress::StopsAll => true,
        }
    }
}
