//! The body of a request for a derived token.
ghost use Rattle.std.specs.Prelude.{◌≡◌, Some, IfOk, IsUtf8};
ghost use Rattle.gnap_objects.specs.Fits.{RequestFits};
ghost use Rattle.gnap_objects.specs.CallsFit.{ModesFitOr};
ghost use Rattle.grant_values.specs.Grants.{request_text};

use bytes_and_lists::bytes::Bytes;
use bytes_and_lists::memory::Mem;
use gnap_model::objects::GrantRequest;
use grant_values::request_text;
use std::alloc::Global;

/// The body of a grant request for a token that is derived from the parent: the compact text of the object that `grant_values::grant_value` gives, with the
/// parent as the member `existing_access_token` (RFC 9767, section 4).
pub fn derive_body(alloc: Global, request: &GrantRequest, parent: &Bytes) -> Result<Bytes, Mem>
    requires fits { RequestFits request.now }
    requires modes { ModesFitOr request.now.modes }
    requires parent { IsUtf8 parent.now }
    ensures { IfOk result (λ text. text ≡ request_text (Some parent.now) request.now) }
{
    request_text(alloc, Some(parent), request)
}
