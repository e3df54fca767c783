//! Laws on the histories of the machine with marks. Each function does nothing; its contract is the law.
ghost use Rattle.signed_calls.specs.Laws.{PlainHistories, MarksPassOnce, SignedHistoriesHold};

use gnap_laws::laws::{
    doors_open_once, drawn_codes_are_free, drawn_values_differ, limits_hold, refusals_have_causes,
    rotated_keys_bind, says_active, tells_what_came, wrong_references_are_few,
};

/// A legal history of the machine with marks is a legal history of the machine without, where a lapse stands in place of each entry whose mark is
/// refused, and marks and their notes are taken away.
pub fn plain_histories()
    ensures { PlainHistories }
{}

/// Of the entries with one key and mark, neither cancellations nor revocations, at most one is answered otherwise than by invalid_client.
pub fn marks_pass_once()
    ensures { MarksPassOnce }
{}

/// What holds of each legal history of the machine with marks.
pub fn signed_histories_hold()
    ensures { SignedHistoriesHold }
{
    tells_what_came();
    says_active();
    refusals_have_causes();
    limits_hold();
    wrong_references_are_few();
    drawn_codes_are_free();
    drawn_values_differ();
    doors_open_once();
    rotated_keys_bind();
    marks_pass_once();
}
