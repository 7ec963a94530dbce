//! Laws of listings, each the contract of a function that does nothing.

ghost use Rattle.sc_listing.specs.Answers.{AnswersAreOne};

/// Two logs that tell each unit the same have one text of answers, in whatever order the units took their steps.
pub fn answers_are_one()
    ensures { AnswersAreOne }
{}
