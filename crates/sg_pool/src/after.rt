/// What a step told: the unit goes on, it waits, or every live unit waits.
#[derive(Clone, Copy, Debug, Drop)]
pub enum After {
    Goes,
    Waits,
    IsStuck,
}
