//! The judgement of a row.
ghost use Rattle.std.specs.Prelude.{◌≡◌, option_map, Some};
ghost use Rattle.introspection.specs.Judgement.{judged};

use gnap_model::objects::Binding;
use gnap_model::rights::{Names, Rights};
use gnap_tables::rows::TokenRow;
use grant_rules::suiting::{serves_all, suits};

/// What an introspection is told.
#[derive(Clone, Copy, Debug, PartialEq, Eq)]
pub enum Judged {
    /// The token is live and suits the server and what it asks.
    Active,
    /// There is no such token.
    Inactive,
    /// The server doesn't serve all that it asks about.
    NotServed,
}

/// Judges the row with the value that an introspection presents, which has these rights, where `approved` says that its grant is approved and `now` is in
/// seconds since 1970. Takes no memory.
pub fn judge(
    row: Option<&TokenRow>,
    rights: &Rights,
    approved: bool,
    now: u64,
    names: &Names,
    binding: Option<Binding>,
    wanted: &Option<Rights>,
) -> Judged
    requires rights { (row_is : _) → option_map (λ row. row.now) row ≡ Some row_is → rights.now ≡ row_is.rights }
    ensures { result ≡ judged (option_map (λ row. row.now) row.entry) approved now names.now binding wanted.now }
{
    if !serves_all(names, wanted) {
        return Judged::NotServed;
    }
    match row {
        Some(row) => {
            if !row.retired
                && now < row.until
                && approved
                && suits(names, binding, wanted, rights, row.bearer)
            {
                Judged::Active
            } else {
                Judged::Inactive
            }
        }
        None => Judged::Inactive,
    }
}
