//! The answer to an introspection (RFC 9767, section 3.3).
ghost use Rattle.std.specs.Prelude.{◌≡◌, ℕ, option_map, Some, IfOk};
ghost use Rattle.gnap_model.specs.Rights.{served_part as part_served};
ghost use Rattle.gnap_model.specs.Actions.{Supply};
ghost use Rattle.gnap_model.specs.declared.calls.Call.TheVariants.{Introspect};
ghost use Rattle.gnap_tables.specs.ActionsByRows.{row_action};
ghost use Rattle.table_core.specs.CallEffects.{ActsBy, tables_in};
ghost use Rattle.table_core.specs.Choices.{approved_of};

use access_rights::served::served_part;
use bytes_and_lists::bytes::Bytes;
use bytes_and_lists::memory::{Duplicate, Mem};
use bytes_and_lists::seq::Seq;
use gnap_model::calls::Reply;
use gnap_model::objects::{Binding, ErrorCode, Setup};
use gnap_model::rights::{Names, Rights};
use gnap_tables::rows::TokenRow;
use grant_rules::keys::server_names;
use grant_rules::suiting::serves_each;
use grant_states::GrantTable;
use introspection::{Judged, judge};
use std::alloc::Global;
use token_manager::TokenTable;

// The rights of the token of a row.
fn rights_of(alloc: Global, row: Option<&TokenRow>) -> Result<Rights, Mem>
    ensures { IfOk result (λ rights. (row_is : _) → option_map (λ row. row.now) row.entry ≡ Some row_is → rights ≡ row_is.rights) }
{
    match row {
        Some(row) => row.rights.rights(alloc),
        None => Ok(Seq::new(alloc)),
    }
}

// Those of the rights that the server with these names serves. Where it serves them all, as is the rule, none is copied.
fn served_of(alloc: Global, names: &Names, rights: Rights) -> Result<Rights, Mem>
    ensures { IfOk result (λ served. served ≡ part_served names.now rights) }
{
    if serves_each(names, rights.as_slice()) {
        return Ok(rights);
    }
    served_part(alloc, &rights, names)
}

// The grant of the row is approved.
fn grant_approved(grants: &GrantTable, row: Option<&TokenRow>) -> bool
    ensures { result ≡ approved_of grants.now.rows (option_map (λ row. row.now) row.entry) }
{
    match row {
        Some(row) => grants.is_approved(row.grant),
        None => false,
    }
}

/// Answers an introspection.
pub fn introspect(
    alloc: Global,
    rules: &Setup,
    grants: &GrantTable,
    tokens: &TokenTable,
    now: u64,
    server: &Bytes,
    value: &Bytes,
    binding: Option<Binding>,
    wanted: &Option<Rights>,
) -> Result<Reply, Mem>
    ensures { IfOk result (λ reply. (next : ℕ) (supply : Supply) → supply.now ≡ now
        → ActsBy supply (row_action rules.now next (tables_in grants.now.rows tokens.now.rows) supply.now (Introspect server.now value.now binding wanted.now))
        (tables_in grants.now.rows tokens.now.rows) (tables_in grants.now.rows tokens.now.rows) (record { reply = reply; opened = 0; drawn = 0 })) }
{
    // The count says that the rows stand in the order of their serials.
    let _count = tokens.len();
    let none = Seq::new(alloc);
    let names = server_names(rules, server.as_slice(), &none);
    let row = tokens.by_value(value.as_slice());
    let approved = grant_approved(grants, row);
    let rights = rights_of(alloc, row)?;
    let judged = judge(row, &rights, approved, now, names, binding, wanted);
    // Each arm returns at once: a reply that arms have in common is copied.
    match judged {
        Judged::NotServed => {
            return Ok(Reply::Error {
                code: ErrorCode::InvalidAccess,
            });
        }
        Judged::Inactive => return Ok(Reply::Inactive),
        Judged::Active => match row {
            Some(row) => {
                let access = served_of(alloc, names, rights)?;
                let instance = row.key.copy()?;
                return Ok(Reply::Active {
                    access,
                    iat: row.issued,
                    exp: row.until,
                    instance,
                    bearer: row.bearer,
                });
            }
            None => return Ok(Reply::Inactive),
        },
    }
}
