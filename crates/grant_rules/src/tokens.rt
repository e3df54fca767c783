//! A token as it is handed out (RFC 9635, section 3.2.1).
ghost use Rattle.std.specs.Prelude.{◌≡◌, IfOk};
ghost use Rattle.gnap_model.specs.Actions.{token_out as token_shown};

use bytes_and_lists::memory::{Duplicate, Mem};
use gnap_model::calls::TokenOut;
use gnap_model::notes::TokenNote;

/// The token as it is handed out at this moment, with the seconds that it has left.
pub fn token_out(token: &TokenNote, now: u64) -> Result<TokenOut, Mem>
    ensures { IfOk result (λ out. out ≡ token_shown now token.now) }
{
    Ok(TokenOut {
        value: token.value,
        manage: token.manage,
        label: token.label.copy()?,
        rights: token.rights.copy()?,
        expires_in: token.until.saturating_sub(now),
        bearer: token.bearer,
    })
}
