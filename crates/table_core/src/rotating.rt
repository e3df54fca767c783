//! The rotation of a token (RFC 9635, section 6.1). All memory is taken before the tables change.
ghost use Rattle.std.specs.Prelude.{◌≡◌, ◌≤◌, ℕ, List, option_map, IfOk, OnErr};
ghost use Rattle.gnap_model.specs.Common.{Text};
ghost use Rattle.gnap_model.specs.declared.calls.Call.TheVariants.{Rotate};
ghost use Rattle.gnap_tables.specs.RowSearches.{is_live_row};
ghost use Rattle.grant_rules.specs.Drawn.{supply_with};
ghost use Rattle.table_core.specs.CallEffects.{HasRoom, AnswersCall, tables_in};
ghost use Rattle.table_core.specs.Choices.{rotated_to, rotation_to_key, rotation_for, rotation_of};

use crate::answered::{Answered, undrawn};
use crate::issuing::issued;
use bytes_and_lists::bytes::Bytes;
use bytes_and_lists::memory::{Duplicate, Mem};
use gnap_model::calls::{Reply, TokenOut};
use gnap_model::objects::{ErrorCode, Setup};
use gnap_tables::rows::{GrantRow, TokenRow};
use grant_rules::drawing::Supply;
use grant_rules::keys::can_bind;
use grant_states::GrantTable;
use std::alloc::Global;
use token_manager::TokenTable;

/// What a rotation comes to.
#[derive(Drop)]
pub enum Rotation {
    /// It is refused.
    Denied(ErrorCode),
    /// The token with this serial has a successor.
    Succeeded {
        /// The serial of the old token.
        serial: u64,
        /// The new row.
        row: TokenRow,
        /// What the client is told.
        out: TokenOut,
    },
}

// The row is live.
fn is_live(grants: &GrantTable, row: &TokenRow, now: u64) -> bool
    ensures { result ≡ is_live_row now grants.now.rows row.now }
{
    !row.retired && now < row.until && grants.is_approved(row.grant)
}

// The token's successor, which is bound to this key, and what the client is told.
fn succeed(
    alloc: Global,
    token: &TokenRow,
    grant: &GrantRow,
    supply: &Supply,
    key: &Bytes,
) -> Result<Rotation, Mem>
    ensures { IfOk result (λ r. (taken : List Text) → r ≡ rotated_to (supply_with supply.now taken) token.now grant.now key.now) }
{
    let successor = supply.token(
        grant.number,
        key,
        grant.end,
        token.label.copy()?,
        token.rights.rights(alloc)?,
        token.bearer,
        0,
    )?;
    let issued = issued(alloc, successor, supply.moment)?;
    Ok(Rotation::Succeeded {
        serial: token.serial,
        row: issued.row,
        out: issued.told,
    })
}

// What the rotation of a live token by its own key comes to (RFC 9635, section 6.1.1).
fn rotation_to(
    alloc: Global,
    rules: &Setup,
    token: &TokenRow,
    grant: &GrantRow,
    supply: &Supply,
    new_key: &Option<Bytes>,
) -> Result<Rotation, Mem>
    ensures { IfOk result (λ r. (taken : List Text) → r ≡ rotation_to_key rules.now (supply_with supply.now taken) new_key.now token.now grant.now) }
{
    match new_key {
        None => succeed(alloc, token, grant, supply, &token.key),
        Some(named) => {
            if can_bind(rules, token.bearer, named.as_slice()) {
                succeed(alloc, token, grant, supply, named)
            } else {
                Ok(Rotation::Denied(ErrorCode::InvalidRotation))
            }
        }
    }
}

// What the rotation of a token of a grant comes to.
fn rotation_on(
    alloc: Global,
    rules: &Setup,
    token: &TokenRow,
    grant: Option<&GrantRow>,
    supply: &Supply,
    key: &[u8],
    new_key: &Option<Bytes>,
) -> Result<Rotation, Mem>
    ensures { IfOk result (λ r. (taken : List Text)
        → r ≡ rotation_for rules.now (supply_with supply.now taken) key.now new_key.now token.now (option_map (λ row. row.now) grant.entry)) }
{
    match grant {
        None => Ok(Rotation::Denied(ErrorCode::InvalidRotation)),
        Some(grant) => {
            if token.key.as_slice() != key {
                return Ok(Rotation::Denied(ErrorCode::InvalidClient));
            }
            rotation_to(alloc, rules, token, grant, supply, new_key)
        }
    }
}

// What a rotation comes to. It takes memory, and changes nothing.
fn rotation_by(
    alloc: Global,
    rules: &Setup,
    grants: &GrantTable,
    token: Option<&TokenRow>,
    supply: &Supply,
    key: &[u8],
    new_key: &Option<Bytes>,
) -> Result<Rotation, Mem>
    ensures { IfOk result (λ r. (taken : List Text)
        → r ≡ rotation_of rules.now (supply_with supply.now taken) key.now new_key.now grants.now.rows (option_map (λ row. row.now) token.entry)) }
{
    match token {
        None => Ok(Rotation::Denied(ErrorCode::InvalidRotation)),
        Some(token) => {
            if is_live(grants, token, supply.moment) {
                rotation_on(
                    alloc,
                    rules,
                    token,
                    grants.by_number(token.grant),
                    supply,
                    key,
                    new_key,
                )
            } else {
                Ok(Rotation::Denied(ErrorCode::InvalidRotation))
            }
        }
    }
}

/// Rotates a token. An `Err` changes nothing.
pub fn rotate(
    alloc: Global,
    rules: &Setup,
    grants: &GrantTable,
    tokens: &mut TokenTable,
    supply: &Supply,
    key: &Bytes,
    value: &Bytes,
    new_key: &Option<Bytes>,
) -> Result<Answered, Mem>
    requires room { (next : ℕ) × HasRoom next supply.now.first grants.now tokens.old }
    ensures ok { IfOk result (λ answered. (next : ℕ) → AnswersCall rules.now next supply.now (Rotate key.now value.now new_key.now)
        (tables_in grants.now.rows tokens.old.rows) (tables_in grants.now.rows tokens.new.rows) answered) }
    ensures few { IfOk result (λ answered. (answered.opened ≤ 1) × (answered.drawn ≤ 17)) }
    ensures err { OnErr result (tokens.new.rows ≡ tokens.old.rows) }
{
    let token = tokens.by_manage(value.as_slice());
    let rotation = rotation_by(alloc, rules, grants, token, supply, key.as_slice(), new_key)?;
    match rotation {
        Rotation::Denied(code) => Ok(undrawn(Reply::Error { code })),
        Rotation::Succeeded { serial, row, out } => {
            let row = Box::new(alloc, row)?;
            tokens.reserve(1)?;
            tokens.retire(serial);
            tokens.issue(row);
            Ok(Answered {
                reply: Reply::Rotated { token: out },
                opened: 0,
                drawn: 2,
            })
        }
    }
}
