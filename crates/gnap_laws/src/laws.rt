//! Laws on the histories of the grant machine. Each function does nothing; its contract is the law.
ghost use Rattle.gnap_laws.specs.Laws.{CoversIsInclusion, RefusalsHaveCauses, SaysActive, TellsWhatCame, DoorsOpenOnce, DrawnValuesDiffer, LimitsHold, WrongReferencesAreFew, DrawnCodesAreFree, RotatedKeysBind};

/// Granted rights cover wanted ones exactly where each atom of the wanted ones is an atom of the granted ones (RFC 9635, section 8).
pub fn covers_is_inclusion()
    ensures { CoversIsInclusion }
{}

/// An introspection says active exactly for a live token that serves the asking server and suits what it asks (RFC 9767, section 3.3).
pub fn says_active()
    ensures { SaysActive }
{}

/// An error reply has the cause that belongs to its code (RFC 9635, section 3.6).
pub fn refusals_have_causes()
    ensures { RefusalsHaveCauses }
{}

/// At most 65,536 grants and 65,536 tokens are live, after every legal history and at each moment from its greatest one on.
pub fn limits_hold()
    ensures { LimitsHold }
{}

/// In a round that goes on fewer than five interaction references were wrong (RFC 9635, section 5.1).
pub fn wrong_references_are_few()
    ensures { WrongReferencesAreFew }
{}

/// The user code that is drawn for a round is that of no live interaction (RFC 9635, section 3.3.3).
pub fn drawn_codes_are_free()
    ensures { DrawnCodesAreFree }
{}

/// A continuation value succeeds at most once, and is refused after it was used up (RFC 9635, section 5).
pub fn doors_open_once()
    ensures { DoorsOpenOnce }
{}

/// All values that replies draw differ.
pub fn drawn_values_differ()
    ensures { DrawnValuesDiffer }
{}

/// An introspection is answered Active exactly where requests and replies alone show a token that serves (RFC 9767, section 3.3).
pub fn tells_what_came()
    ensures { TellsWhatCame }
{}

/// After a rotation that named a key every introspection tells the new token's key as that, and no other key rotates or revokes it (RFC 9635, section 6.1.1).
pub fn rotated_keys_bind()
    ensures { RotatedKeysBind }
{}
