//! The sweep of what isn't remembered any more.
ghost use Rattle.std.specs.Prelude.{◌≡◌, ◌<◌, ◌≤◌, ◌&&◌, ℕ, List, IfSome, IfNone, IsTrue, not, None, false, if◌then◌else◌};
ghost use Rattle.std.specs.Ordering.{nat_cmp};
ghost use Rattle.std.specs.BTreeMap.{ContainsKey};
ghost use Rattle.signed_calls.specs.Remembering.{IsSwept, is_live_at};
ghost use Rattle.gnap_model.specs.Common.{same_text};
ghost use Rattle.nonce_store.specs.Kept.{Covers, IsPopped, until_in, many_in, is_noted, has};

use crate::run::Run;
use crate::seconds::Seconds;
use crate::trees::KeyedNonces;

// Takes the least second out if it is over, and gives its nonces.
fn pop_over(seconds: &mut Seconds, latest: u64) -> Option<Run>
    ensures some { IfSome result (λ run. IsPopped latest seconds.old run seconds.new) }
    ensures none { IfNone result (seconds.new.entries ≡ seconds.old.entries) }
    ensures none_over { IfNone result ((second : ℕ) (k n : List ℕ) → second < latest → is_noted seconds.old second k n ≡ false) }
{
    let (second, _) = seconds.first_key_value()?;
    if latest <= *second {
        return None;
    }
    let (_, run) = seconds.pop_first()?;
    Some(run)
}

// Whether each second is over.
fn are_over(seconds: &Seconds, latest: u64) -> bool
    ensures over { IsTrue result → (second : ℕ) (k n : List ℕ) → latest ≤ second → is_noted seconds.now second k n ≡ false }
    ensures not_over { result ≡ false → (second : ℕ) × (latest ≤ second) × ContainsKey nat_cmp seconds.now second }
{
    match seconds.last_key_value() {
        Some((second, _)) => *second < latest,
        None => true,
    }
}

// Takes those of these nonces out that aren't remembered any more.
fn take_over(kept: &mut KeyedNonces, run: &Run, latest: u64)
    ensures rows { (k n : List ℕ) → until_in kept.new.keys k n
        ≡ (if has run.now k n && not (is_live_at latest (until_in kept.old.keys k n)) then None else until_in kept.old.keys k n) }
    ensures counts { (m : ℕ) → latest ≤ m → many_in kept.new.keys m ≡ many_in kept.old.keys m }
{
    for place in run.places() {
        kept.take_if_over(run.key(place), run.nonce(place), latest);
    }
}

/// Takes out the seconds that are over, and their nonces. Where all are, nothing is looked up.
pub fn sweep(kept: &mut KeyedNonces, seconds: &mut Seconds, latest: u64)
    requires { Covers seconds.old kept.old.keys }
    ensures covers { Covers seconds.new kept.new.keys }
    ensures swept { IsSwept (until_in kept.old.keys) (many_in kept.old.keys) latest (until_in kept.new.keys) (many_in kept.new.keys) }
{
    while let Some(run) = pop_over(seconds, latest) {
        if are_over(seconds, latest) {
            seconds.clear();
            kept.forget_all();
            return;
        }
        take_over(kept, &run, latest);
    }
}
