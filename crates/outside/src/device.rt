//! What bytes are read from and written to.
ghost use Rattle.std.specs.Prelude.{ℕ, ◌<◌, ◌≤◌, length, IfOk};
ghost use Rattle.outside.specs.Outside.{Told, HasRead, HasWritten, HasSent, HasCause};

use thiserror::Error;

/// A device or the world failed.
#[derive(Clone, Copy, Debug, PartialEq, Eq, Error)]
#[error("a device failed")]
pub struct Failed;

/// What contracts see of a device.
pub trait Device: Drop {
    /// How often it failed. The count never falls, and it stands still at 2^64 - 1.
    ghost faults: { Self → ℕ };

    /// Which bytes its calls gave and accepted, and which it has left, where that is known.
    ghost told: { Self → Told };
}

/// What bytes are read from.
pub trait Source: Device {
    /// Moves the first bytes that are left into the buffer, and answers how many. `Ok(0)` is the end of the input: none
    /// came, and none is left. An `Err` takes nothing.
    fn read(&mut self, buf: &mut [u8]) -> Result<usize, Failed>
        requires { 0 < length buf.old }
        ensures bound { IfOk result (λ count. count ≤ length buf.old) }
        ensures told { HasRead (Self.told self.old) (Self.told self.new) result buf.new }
        ensures cause { HasCause (Self.faults self.old) (Self.faults self.new) result };
}

/// What bytes are written to.
pub trait Sink: Device {
    /// Takes the first bytes of the piece, one at least, and answers how many. An `Err` takes nothing.
    fn write(&mut self, piece: &[u8]) -> Result<usize, Failed>
        requires { 0 < length piece.now }
        ensures bound { IfOk result (λ count. (1 ≤ count) × (count ≤ length piece.now)) }
        ensures told { HasWritten (Self.told self.old) (Self.told self.new) result piece.now }
        ensures cause { HasCause (Self.faults self.old) (Self.faults self.new) result };
}

/// Writes all of the text. At an `Err` a beginning of it went out.
pub fn write_all<O: Sink>(out: &mut O, text: &[u8]) -> Result<(), Failed>
    ensures sent { HasSent text.now (O.told out.old) (O.told out.new) result }
    ensures cause { HasCause (O.faults out.old) (O.faults out.new) result }
{
    let mut at = 0;
    while at < text.len() {
        at += out.write(&text[at..])?;
    }
    Ok(())
}
