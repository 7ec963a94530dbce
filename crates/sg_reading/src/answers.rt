/// A set of answers to queries: those of a graph, of a state that still grows, or of the replies that have come so far.
pub trait Answers {
    type Query;

    type Answer;

    /// Whether the query has this answer.
    ghost has_answer: { Self.Query → Self.Answer → Type 0 };
}
