//! The revocation of a token (RFC 9635, section 6.2). It takes no memory.
ghost use Rattle.std.specs.Prelude.{◌≡◌, ℕ};
ghost use Rattle.gnap_model.specs.Actions.{Supply};
ghost use Rattle.gnap_model.specs.declared.calls.Call.TheVariants.{Revoke};
ghost use Rattle.gnap_model.specs.declared.objects.Setup.{Setup};
ghost use Rattle.gnap_tables.specs.ActionsByRows.{row_action};
ghost use Rattle.gnap_tables.specs.RowSearches.{row_by_manage};
ghost use Rattle.table_core.specs.CallEffects.{ActsBy, tables_in};
ghost use Rattle.table_core.specs.Choices.{revocation_of};

use crate::answered::{Answered, undrawn};
use bytes_and_lists::bytes::Bytes;
use gnap_model::calls::Reply;
use gnap_model::objects::ErrorCode;
use grant_states::GrantTable;
use token_manager::TokenTable;

/// What a revocation comes to.
#[derive(Clone, Copy, Debug, PartialEq, Eq)]
pub enum Revocation {
    /// It is refused.
    Refused(ErrorCode),
    /// The token was retired before.
    Left,
    /// The token with this serial is retired.
    Marked(u64),
}

// What a revocation comes to.
fn revocation_by(grants: &GrantTable, tokens: &TokenTable, key: &[u8], value: &[u8]) -> Revocation
    ensures { result ≡ revocation_of key.now grants.now.rows (row_by_manage value.now tokens.now.rows) }
{
    match tokens.by_manage(value) {
        Some(token) => match grants.by_number(token.grant) {
            Some(_) => {
                if token.key.as_slice() == key {
                    if token.retired {
                        Revocation::Left
                    } else {
                        Revocation::Marked(token.serial)
                    }
                } else {
                    Revocation::Refused(ErrorCode::InvalidClient)
                }
            }
            None => Revocation::Refused(ErrorCode::InvalidRequest),
        },
        None => Revocation::Refused(ErrorCode::InvalidRequest),
    }
}

/// Revokes a token.
pub fn revoke(grants: &GrantTable, tokens: &mut TokenTable, key: &Bytes, value: &Bytes) -> Answered
    ensures few { (result.opened ≡ 0) × (result.drawn ≡ 0) }
    ensures acts { (rules : Setup) (next : ℕ) (supply : Supply)
        → ActsBy supply (row_action rules next (tables_in grants.now.rows tokens.old.rows) supply.now (Revoke key.now value.now))
        (tables_in grants.now.rows tokens.old.rows) (tables_in grants.now.rows tokens.new.rows) result }
{
    match revocation_by(grants, tokens, key.as_slice(), value.as_slice()) {
        Revocation::Refused(code) => undrawn(Reply::Error { code }),
        Revocation::Left => undrawn(Reply::Done),
        Revocation::Marked(serial) => {
            tokens.revoke(serial);
            undrawn(Reply::Done)
        }
    }
}
