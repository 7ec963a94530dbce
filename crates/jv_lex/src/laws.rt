//! What the definitions imply: a source has one list of tokens, which rise by place, or one first bad place.

ghost use Rattle.jv_lex.specs.Source.{TokensAreOne, FaultsAreOne, TokensExcludeFaults, TextsHaveTokensOrAFault, TokensRiseByPlace};

/// A source has at most one list of tokens.
pub fn tokens_are_one()
    ensures { TokensAreOne }
{}

/// A source has at most one first bad place, of one kind.
pub fn faults_are_one()
    ensures { FaultsAreOne }
{}

/// A source that has tokens has no bad place.
pub fn tokens_exclude_faults()
    ensures { TokensExcludeFaults }
{}

/// A source that is UTF-8 has tokens or a bad place.
pub fn texts_have_tokens_or_a_fault()
    ensures { TextsHaveTokensOrAFault }
{}

/// The tokens of a source rise by place: each starts behind the start of the one before.
pub fn tokens_rise_by_place()
    ensures { TokensRiseByPlace }
{}
