//! How a command ends for which the world handed nothing out.
ghost use Rattle.std.specs.Prelude.{◌≡◌};
ghost use Rattle.world_uses.specs.Uses.{ended_by_fault};

use command_inputs::Ended;
use outside::world::WorldFault;

/// How a command ends for which the world handed nothing out.
pub fn ended_by_fault(fault: WorldFault) -> Ended
    ensures { result ≡ ended_by_fault fault }
{
    match fault {
        WorldFault::Failed => Ended::Failed,
        WorldFault::OutOfMemory => Ended::Memory,
    }
}
