//! What a call changes in the row of a grant.
ghost use Rattle.std.specs.Prelude.{◌≡◌};
ghost use Rattle.grant_states.specs.Grants.{changed_by, CanChange};

use gnap_tables::rows::{Decision, GrantRow};
use kept_rights::{KeptAsks, KeptRights};

/// A change of the row of a grant.
#[derive(Drop)]
pub enum Change {
    /// It is asked for this from now on.
    Terms {
        /// The tokens.
        asks: KeptAsks,
        /// One token outside an array.
        single: bool,
        /// An identifier of the user.
        subject: bool,
    },
    /// It is approved, and the user granted these rights so far.
    Approve(KeptRights),
    /// The user decided.
    Decide(Decision),
    /// A wrong reference came.
    Wrong,
}

/// Changes the row of a grant.
pub fn apply(row: &mut GrantRow, change: Change)
    requires { CanChange change row.old }
    ensures { row.new ≡ changed_by change row.old }
{
    match change {
        Change::Terms {
            asks,
            single,
            subject,
        } => {
            row.asks = asks;
            row.single = single;
            row.subject = subject;
        }
        Change::Approve(consent) => {
            row.consent = consent;
            row.approved = true;
            row.round = None;
        }
        Change::Decide(decision) => {
            if let Some(round) = &mut row.round {
                round.decide(decision);
            }
        }
        Change::Wrong => {
            if let Some(round) = &mut row.round {
                round.count_wrong();
            }
        }
    }
}
