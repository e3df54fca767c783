//! A whole source, read to its end.
ghost use Rattle.std.specs.Prelude.{◌<◌};
ghost use Rattle.command_inputs.specs.Inputs.{ReadsInput, CountsInput};

use crate::line_reader::{LineReader, Refill};
use bytes_and_lists::bytes::Bytes;
use bytes_and_lists::memory::Mem;
use outside::device::Source;
use std::alloc::Global;
use thiserror::Error;

/// Why a source wasn't read to its end.
#[derive(Clone, Copy, Debug, PartialEq, Eq, Error)]
pub enum InputFault {
    /// It has more bytes than are wanted.
    #[error("it has more bytes than are wanted")]
    TooLong,
    /// A read failed.
    #[error("a read failed")]
    Failed,
    /// Memory ran out.
    #[error("memory ran out")]
    OutOfMemory,
}

/// All bytes of a source that has at most so many. Of one that has more, at most 16,384 more are read.
pub fn read_input<S: Source>(
    alloc: Global,
    source: &mut S,
    limit: usize,
) -> Result<Bytes, InputFault>
    requires { limit < 1073741824 }
    ensures read { ReadsInput limit (S.told source.old) (S.told source.new) result }
    ensures cause { CountsInput result (S.faults source.old) (S.faults source.new) }
{
    let mut reader = LineReader::new(alloc);
    let mut text = Bytes::new(alloc);
    while text.len() <= limit {
        match reader.refill(source) {
            Refill::More => match reader.take_all(&mut text) {
                Ok(()) => {}
                Err(Mem) => return Err(InputFault::OutOfMemory),
            },
            Refill::End => return Ok(text),
            Refill::Full => unreachable!(),
            Refill::Failed => return Err(InputFault::Failed),
            Refill::Memory => return Err(InputFault::OutOfMemory),
        }
    }
    Err(InputFault::TooLong)
}
