//! One whole text, printed.
ghost use Rattle.std.specs.Prelude.{◌≡◌, ◌≢◌, ◌⊎◌};
ghost use Rattle.command_inputs.specs.Ends.{CountsWrites};
ghost use Rattle.command_inputs.specs.LineRuns.{Prints, CountsPrint};
ghost use Rattle.command_inputs.specs.Printing.{PrintsAnswer};

use crate::ended::Ended;
use bytes_and_lists::bytes::Bytes;
use outside::device::{Sink, write_all};

/// Whether more lines may follow.
#[derive(Clone, Copy, Debug, PartialEq, Eq)]
pub enum After {
    On,
    /// Memory ran out, and nothing was printed.
    Starved,
    /// A write failed, and a beginning of what was to be printed went out.
    Cut,
}

/// Prints the text of a line.
pub fn say<O: Sink>(out: &mut O, text: &Bytes) -> After
    ensures prints { Prints result text.now (O.told out.old) (O.told out.new) }
    ensures counts { CountsPrint result (O.faults out.old) (O.faults out.new) }
    ensures fed { result ≢ After.Starved }
{
    match write_all(out, text.as_slice()) {
        Ok(()) => After::On,
        Err(_) => After::Cut,
    }
}

/// Prints the one text of a command.
pub fn print_text<O: Sink>(text: &Bytes, out: &mut O) -> Ended
    ensures prints { PrintsAnswer (λ line. line ≡ text.now) (λ line. ⊥) (O.told out.old) (O.told out.new) result }
    ensures ended { (result ≡ Ended.Done) ⊎ (result ≡ Ended.WriteFault) }
    ensures writes { CountsWrites result (O.faults out.old) (O.faults out.new) }
{
    match write_all(out, text.as_slice()) {
        Ok(()) => Ended::Done,
        Err(_) => Ended::WriteFault,
    }
}
