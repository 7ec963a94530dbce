/// What the program is asked for.
#[derive(Clone, Copy, Debug)]
pub(crate) enum Command {
    /// The report on a folder.
    Check,
    /// The questions that the checkers of a folder asked, with their answers.
    Answers,
    /// The finished graph of a folder.
    Graph,
    /// The report on a project with so many classes, which is made from their number.
    Gen(u32),
}
