//! Laws of requests that are printed. The functions do nothing; their contracts are the laws.
ghost use Rattle.grant_values.specs.Laws.{ReadsBack};

/// A request that was read, printed and read again is the same request, and the existing token that it presents stands in what is printed.
pub fn reads_back()
    ensures { ReadsBack }
{}
