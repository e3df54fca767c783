//! What is asked of a call before it is answered.
ghost use Rattle.std.specs.Prelude.{◌≡◌, ◌≢◌};
ghost use Rattle.gnap_model.specs.declared.calls.Call.TheVariants.{Lapse};
ghost use Rattle.gnap_laws.specs.Refusals.{caller};
ghost use Rattle.signed_calls.specs.Marks.{is_remembered};

use bytes_and_lists::bytes::Bytes;
use gnap_model::calls::Call;

/// Who makes the call.
pub fn caller_of(call: &Call) -> &Bytes
    requires { call.now ≢ Lapse }
    ensures { result.now ≡ caller call.now }
{
    match call {
        Call::Begin { key, .. } => key,
        Call::Continue { key, .. } => key,
        Call::Modify { key, .. } => key,
        Call::Cancel { key, .. } => key,
        Call::Rotate { key, .. } => key,
        Call::Revoke { key, .. } => key,
        Call::Introspect { server, .. } => server,
        Call::Look { front, .. } => front,
        Call::FindCode { front, .. } => front,
        Call::Decide { front, .. } => front,
        Call::Lapse => unreachable!(),
    }
}

/// Whether the nonce of the call is remembered.
pub fn leaves_nonce(call: &Call) -> bool
    ensures { result ≡ is_remembered call.now }
{
    match call {
        Call::Cancel { .. } => false,
        Call::Revoke { .. } => false,
        _ => true,
    }
}
