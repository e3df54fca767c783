//! A law of derived tokens. The function does nothing; its contract is the law.
ghost use Rattle.derived_tokens.specs.Terms.{EndsWithItsTerm};

/// No token of a grant that was asked for with an end is told to be active at or after that end.
pub fn ends_with_its_term()
    ensures { EndsWithItsTerm }
{}
