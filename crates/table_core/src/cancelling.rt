//! The cancellation of a grant (RFC 9635, section 5.4). It takes no memory.
ghost use Rattle.std.specs.Prelude.{◌≡◌, ℕ};
ghost use Rattle.gnap_model.specs.Actions.{Supply};
ghost use Rattle.gnap_model.specs.declared.calls.Call.TheVariants.{Cancel};
ghost use Rattle.gnap_model.specs.declared.objects.Setup.{Setup};
ghost use Rattle.gnap_tables.specs.ActionsByRows.{row_action};
ghost use Rattle.gnap_tables.specs.RowSearches.{row_by_door};
ghost use Rattle.table_core.specs.CallEffects.{ActsBy, tables_in};
ghost use Rattle.table_core.specs.Choices.{named_number};

use crate::answered::{Answered, undrawn};
use bytes_and_lists::bytes::Bytes;
use gnap_model::calls::Reply;
use gnap_model::objects::ErrorCode;
use grant_states::GrantTable;
use token_manager::TokenTable;

// The number of the grant that the value names, where the key is the grant's.
fn named(grants: &GrantTable, key: &[u8], value: &[u8]) -> Result<u64, ErrorCode>
    ensures { result ≡ named_number key.now (row_by_door value.now grants.now.rows) }
{
    match grants.by_door(value) {
        Some(row) => {
            if row.key.as_slice() == key {
                Ok(row.number)
            } else {
                Err(ErrorCode::InvalidClient)
            }
        }
        None => Err(ErrorCode::InvalidContinuation),
    }
}

/// Ends a grant.
pub fn cancel(
    grants: &mut GrantTable,
    tokens: &mut TokenTable,
    key: &Bytes,
    value: &Bytes,
) -> Answered
    ensures acts { (rules : Setup) (next : ℕ) (supply : Supply)
        → ActsBy supply (row_action rules next (tables_in grants.old.rows tokens.old.rows) supply.now (Cancel key.now value.now))
        (tables_in grants.old.rows tokens.old.rows) (tables_in grants.new.rows tokens.new.rows) result }
    ensures few { (result.opened ≡ 0) × (result.drawn ≡ 0) }
    ensures doors { grants.new.doors_below ≡ grants.old.doors_below }
{
    match named(grants, key.as_slice(), value.as_slice()) {
        Ok(number) => {
            grants.finalize(number);
            tokens.retire_all(number);
            undrawn(Reply::Done)
        }
        Err(code) => undrawn(Reply::Error { code }),
    }
}
