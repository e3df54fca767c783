//! Laws of messages with two signatures. The functions do nothing; their contracts are the laws.
ghost use Rattle.signature_laws.specs.Rotation.{PlainBaseIsSame, CoveredIsHeld, RotatedIsByBoth, ByBothIsRotated, FirstIsTold};
ghost use Rattle.signature_laws.specs.Rotation.{SecondIsTold, NotChainedIsTold, SignedIsSigned, IsAlwaysSignedAgain, BothPass};

/// `rotation_base` is `message_signature`'s `signature_base` where no covered component has parameters. Where the list covers another signature, it has
/// that signature's bytes and that signature's own list, each as a line.
pub fn rotation_base_laws()
    ensures same { PlainBaseIsSame }
    ensures held { CoveredIsHeld }
{}

/// `rotated_keys` answers two keys exactly where the first signature is verified under the old key, the second under the new key, and the second covers
/// the first. Else it answers the first of these faults that is there: that of the first signature, that of the second, `NotChained`.
pub fn rotation_laws()
    ensures says { RotatedIsByBoth }
    ensures only { ByBothIsRotated }
    ensures first { FirstIsTold }
    ensures second { SecondIsTold }
    ensures apart { NotChainedIsTold }
{}

/// A message that was signed can be signed again, and then gives both keys: under a ring that has them, with the same base, and at most 300 seconds
/// before or after each of the two.
pub fn signed_rotation_laws()
    ensures signed { SignedIsSigned }
    ensures always { IsAlwaysSignedAgain }
    ensures passes { BothPass }
{}
