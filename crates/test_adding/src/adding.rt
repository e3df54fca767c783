//! The machine that adds.
use histories::laws::Accounts;
use histories::machine::Machine;

#[derive(Clone, Copy, Debug, PartialEq, Eq)]
pub enum Call {
    /// Adds the amount.
    Add(u64),
    /// Asks for the sum and adds nothing. It takes no memory.
    Total,
    /// Stands where memory ran out.
    Lapse,
}

#[derive(Clone, Copy, Debug, PartialEq, Eq)]
pub enum Reply {
    /// The sum of all amounts so far, one that is added by this call among them. It stands still at 2^64 - 1.
    Sum(u64),
    Lapsed,
}

/// The machine. Its rules are what the sum starts from, and its notes are the amounts.
pub struct Adding;

impl Machine for Adding {
    ghost use Rattle.std.specs.Prelude.{refl};
    ghost use Rattle.test_adding.specs.Adding.{adding};

    type Rules = u64;

    type Call = Call;

    type Reply = Reply;

    type Note = u64;

    ghost law = { adding };

    ghost lapse_fits = { tt };

    ghost lapse_notes = { λ rules h moment draw. refl };
}

/// Each of two workers, or a worker alone, says that it made no entry other than one.
impl Accounts for Adding {
    ghost use Rattle.std.specs.Prelude.{[], ◌∷◌};
    ghost use Rattle.test_adding.specs.Adding.{IsOneEntry};

    ghost accounts = { IsOneEntry ∷ IsOneEntry ∷ [] };

    ghost alone = { IsOneEntry };
}
