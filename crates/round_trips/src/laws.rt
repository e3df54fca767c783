//! Laws of round trips. The functions do nothing; their contracts are the laws.
ghost use Rattle.round_trips.specs.GrantReplies.{GrantRepliesReadBack};
ghost use Rattle.round_trips.specs.Introspections.{IntrospectionsReadBack};

/// Of each reply that the authorization server prints for a client, the client reads just its values (RFC 9635, section 3).
pub fn grant_replies_read_back()
    ensures { GrantRepliesReadBack }
{}

/// Of each reply to an introspection that the authorization server prints, a resource server reads just what it says of the token (RFC 9767, section 3.3).
pub fn introspections_read_back()
    ensures { IntrospectionsReadBack }
{}
