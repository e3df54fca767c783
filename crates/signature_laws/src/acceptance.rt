//! Laws of messages whose signature is accepted. The functions do nothing; their contracts are the laws.
ghost use Rattle.signature_laws.specs.Accepted.{AcceptedIsMarked, AcceptedIsVerified, VerifiedIsAccepted};

/// `verified` answers an id exactly where the message is accepted under it: `IsAccepted` says in words what that takes. The mark of a message that is
/// accepted is that of the list whose signature was accepted.
pub fn accepted_laws()
    ensures says { VerifiedIsAccepted }
    ensures only { AcceptedIsVerified }
    ensures marked { AcceptedIsMarked }
{}
