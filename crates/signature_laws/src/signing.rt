//! Laws of signed messages. The functions do nothing; their contracts are the laws.
ghost use Rattle.signature_laws.specs.Signing.{IsAlwaysSigned, SignedIsMarked, SignedPasses};

/// `signed` and `signed_marked` always give a message, and a message that was signed passes `verified`: under a ring that has the key, with the same base
/// and tag, and at most 300 seconds before or after. One that was signed with a nonce has the mark of that nonce and moment.
pub fn signed_laws()
    ensures always { IsAlwaysSigned }
    ensures passes { SignedPasses }
    ensures marked { SignedIsMarked }
{}
