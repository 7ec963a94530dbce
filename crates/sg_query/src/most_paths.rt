/// How many paths that go on an answer looks at.
pub const MOST_PATHS: usize = 4096;
