//! Cores whose time can go on without a call.
ghost use Rattle.std.specs.Prelude.{◌≡◌, ◌≤◌, ℕ, List};
ghost use Rattle.histories.specs.History.{last_moment};
ghost use Rattle.histories.specs.Steps.{Lapses};

use histories::machine::Core;

/// A core that can let time go on without a call, and takes no memory for it.
pub trait Passes: Core {
    /// Stands for the history with a lapse at this moment.
    fn pass(&mut self, moment: u64)
        requires in_time { moment ≤ last_moment }
        ensures rules { Self.rules self.new ≡ Self.rules self.old }
        ensures lapses { (h : _) (draw : List ℕ) → Self.stands self.old h
            → Lapses Self.M.law (Self.rules self.old) h moment draw (Self.stands self.new) };
}
