//! Laws of requests. The functions do nothing; their contracts are the laws.
ghost use Rattle.request_laws.specs.Laws.{IsSignedByBoth};
ghost use Rattle.request_laws.specs.DirectErrors.{DirectErrorsHaveCauses};
ghost use Rattle.request_laws.specs.LineErrors.{LineErrorsHaveCauses};

use signature_laws::rotation::rotation_laws;

/// A request asks that a token moves to a new key only where the key that makes the call signed it, and the new key signed it too, over the first signature
/// (RFC 9635, section 6.1.1).
pub fn signed_by_both()
    ensures { IsSignedByBoth }
{
    rotation_laws();
}

/// An error that is answered at once, without the state, is the answer to a request for a call, and its code has its cause: `InvalidClient`, and for an
/// introspection `InvalidResourceServer`, where nobody signed as the call needs it, the signer's key has another role, the body names another than the
/// signer, or a rotation names a key that didn't sign too; `InvalidRequest` where the body isn't of its form; `InvalidFlag` where a flag stands twice. No other
/// code is answered at once (RFC 9635, section 3.6; RFC 9767, section 3.5).
pub fn direct_errors_have_causes()
    ensures { DirectErrorsHaveCauses }
{}

/// What is said to a line of a replay at once, without the state, has its cause: nothing to an empty line, 413 to one that is too long, 404 to one for a call
/// that there isn't, and else an error. `InvalidClient`, and for an introspection `InvalidResourceServer`, comes where the line's key has another role or the
/// body names another than that key; `InvalidRequest` where the line or its body isn't of its form; `InvalidFlag` where a flag stands twice. No other code is
/// said at once.
pub fn line_errors_have_causes()
    ensures { LineErrorsHaveCauses }
{}
