ghost use Rattle.std.specs.Prelude.{◌≡◌, ◌<◌, ℕ};

/// Work that is done in steps, by one worker at a time. The tasks of a run are numbered from 0.
pub trait Task: Drop {
    /// How many tasks the run has.
    ghost total: { ℕ };

    /// Its number, which stays.
    ghost number: { Self → ℕ };

    /// Its number.
    fn number(&self) -> u32
        ensures { (result ≡ number self.now) × (result < total) };

    /// The numbers of the tasks that its last step lets go on. A number that no task has is passed by.
    fn woken(&self) -> &[u32];
}
