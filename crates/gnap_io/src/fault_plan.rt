//! Which calls of one kind fail, by their numbers.
ghost use Rattle.std.specs.Prelude.{◌≡◌, IfOk};
ghost use Rattle.gnap_io.specs.FaultPlans.{new_plan, is_bad, called};

use bytes_and_lists::memory::Mem;
use std::marker::Model;

/// How many calls were made, and the numbers, counted from 1, of those that are to fail.
#[derive(Drop)]
pub struct FaultPlan {
    made: u64,
    bad: Vec<u64>,
}

impl Model for FaultPlan {
    ghost use Rattle.gnap_io.specs.FaultPlans.{Plan};

    ghost Value = { Plan };

    ghost view = { λ plan. record { made = plan.made; bad = plan.bad.items } };
}

impl FaultPlan {
    /// The calls of these numbers are to fail. None was made yet.
    pub fn new(bad: Vec<u64>) -> FaultPlan
        ensures { result ≡ new_plan bad.items }
    {
        FaultPlan { made: 0, bad }
    }

    /// Counts one more call, and answers whether it is to fail.
    pub fn next_fails(&mut self) -> bool
        ensures fails { result ≡ is_bad self.old }
        ensures counted { self.new ≡ called self.old }
    {
        self.made = self.made.saturating_add(1);
        self.bad.contains(&self.made)
    }

    /// The same plan as it was at its making.
    pub fn unused(&self) -> Result<FaultPlan, Mem>
        ensures { IfOk result (λ plan. plan ≡ new_plan self.now.bad) }
    {
        Ok(FaultPlan::new(self.bad.clone()?))
    }
}
