//! Calls made one after another, at any desk.
ghost use Rattle.std.specs.Prelude.{◌≡◌, ◌+◌, ◌<◌, ◌^◌, length, replicate, IfOk, OnErr};
ghost use Rattle.histories.specs.History.{places};
ghost use Rattle.histories.specs.Steps.{Enters};
ghost use Rattle.test_adding.specs.Adding.{adding};
ghost use Rattle.test_adding.specs.Amounts.{sum_or, GrewBy};

use crate::adding::{Adding, Call, Reply};
use bytes_and_lists::memory::Mem;
use histories::machine::Desk;
use random_words::RandomWords;

/// What calls came to: how many were answered, at how many memory ran out, and the last sum that was answered, 0 where none was.
#[derive(Clone, Copy, Debug, PartialEq, Eq)]
pub struct Made {
    pub answered: u64,
    pub lapsed: u64,
    pub last: u64,
}

impl Made {
    /// Counts one more call by what came of it.
    fn count(&mut self, outcome: Result<Reply, Mem>)
        requires room { self.old.answered + self.old.lapsed + 1 < 2 ^ 64 }
        ensures ok { IfOk outcome (λ reply. (self.new.answered ≡ self.old.answered + 1) × (self.new.lapsed ≡ self.old.lapsed)
            × (self.new.last ≡ sum_or self.old.last reply)) }
        ensures err { OnErr outcome ((self.new.answered ≡ self.old.answered) × (self.new.lapsed ≡ self.old.lapsed + 1)
            × (self.new.last ≡ self.old.last)) }
    {
        match outcome {
            Ok(reply) => {
                self.answered += 1;
                if let Reply::Sum(total) = reply {
                    self.last = total;
                }
            }
            Err(_) => self.lapsed += 1,
        }
    }
}

/// Adds an amount so many times. What the desk has seen grew by as many own entries: the calls that were answered, and a lapse for each
/// at which memory ran out.
pub fn add_often<D: Desk<M = Adding>>(desk: &mut D, amount: u64, times: u64) -> Made
    requires room { (h : _) × D.seen desk.old h × (length (places (D.number desk.old) h) + times < 2 ^ 52) }
    ensures rules { D.rules desk.new ≡ D.rules desk.old }
    ensures number { D.number desk.new ≡ D.number desk.old }
    ensures home { D.home desk.new ≡ D.home desk.old }
    ensures made { (h : _) → D.seen desk.old h → (k : _) × D.seen desk.new k
        × GrewBy (D.number desk.old) amount times result h k }
    ensures all { result.answered + result.lapsed ≡ times }
{
    let mut made = Made {
        answered: 0,
        lapsed: 0,
        last: 0,
    };
    let draw = RandomWords::zeros();
    for _ in 0..times {
        made.count(desk.submit(0, &draw, Call::Add(amount)));
    }
    made
}

/// The sum so far, at a desk where asking for it takes no memory. So the call never lapses, and there is always an answer.
pub fn total_at<D: Desk<M = Adding>>(desk: &mut D) -> u64
    requires frugal { D.frugal Call.Total }
    requires room { (h : _) × D.seen desk.old h × (length (places (D.number desk.old) h) < 2 ^ 52) }
    ensures rules { D.rules desk.new ≡ D.rules desk.old }
    ensures number { D.number desk.new ≡ D.number desk.old }
    ensures home { D.home desk.new ≡ D.home desk.old }
    ensures entered { (h : _) → D.seen desk.old h
        → Enters adding (D.rules desk.old) (D.number desk.old) h 0 (replicate 48 0) Call.Total (Reply.Sum result) (D.seen desk.new) }
{
    match desk.submit(0, &RandomWords::zeros(), Call::Total) {
        Ok(Reply::Sum(total)) => total,
        Ok(Reply::Lapsed) => unreachable!(),
        Err(_) => unreachable!(),
    }
}
