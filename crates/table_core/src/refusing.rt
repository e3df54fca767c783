//! Replies that change nothing.
ghost use Rattle.std.specs.Prelude.{◌≡◌};
ghost use Rattle.gnap_model.specs.Actions.Action.{Refuse};
ghost use Rattle.table_core.specs.Plans.{Plans, nothing_with};

use crate::entering::{Entering, Plan, TableChange};
use gnap_model::calls::Reply;
use gnap_model::objects::ErrorCode;

/// A reply that changes nothing.
pub fn told(reply: Reply) -> Plan
    ensures { result ≡ nothing_with reply }
{
    Plan {
        reply,
        drawn: 0,
        change: TableChange::Nothing,
    }
}

/// An error reply that changes nothing (RFC 9635, section 3.6).
pub fn refused(entering: &Entering, code: ErrorCode) -> Plan
    ensures { Plans entering.now (Refuse code) result }
{
    told(Reply::Error { code })
}
