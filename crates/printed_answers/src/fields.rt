//! The canonical text of a structured field, printed.
ghost use Rattle.std.specs.Prelude.{◌≡◌, ◌++◌, []};
ghost use Rattle.std.specs.Io.BufRead.{strip_last};
ghost use Rattle.outside.specs.Outside.{Leaves, IsRest};
ghost use Rattle.command_inputs.specs.Ends.{CountsReads, CountsWrites, Took};
ghost use Rattle.printed_answers.specs.Fields.{IsCanonical, PrintsField};

use bytes_and_lists::bytes::Bytes;
use command_inputs::{Ended, InputFault, read_input};
use outside::device::{Sink, Source, write_all};
use std::alloc::Global;
use structured_fields::{
    FieldFault, read_dictionary, read_item, read_list, write_dictionary, write_item, write_list,
};

// The most bytes of a field: one fewer than are read of one input.
const FIELD_LIMIT: usize = 1_073_741_823;

/// The kind of a structured field (RFC 9651, section 3).
#[derive(Clone, Copy, Debug, PartialEq, Eq)]
pub enum Kind {
    Item,
    List,
    Dictionary,
}

// The bytes without one LF at their end.
fn without_newline(bytes: &[u8]) -> &[u8]
    ensures { result.now ≡ strip_last 10 bytes.now }
{
    bytes.strip_suffix(b"\n").unwrap_or(bytes)
}

// The canonical text of the value that the text has.
fn canonical_text(alloc: Global, kind: Kind, text: &[u8]) -> Result<Bytes, FieldFault>
    ensures { IsCanonical kind text.now result }
{
    match kind {
        Kind::Item => Ok(write_item(alloc, &read_item(alloc, text)?)?),
        Kind::List => Ok(write_list(alloc, &read_list(alloc, text)?)?),
        Kind::Dictionary => Ok(write_dictionary(alloc, &read_dictionary(alloc, text)?)?),
    }
}

/// Prints the canonical text of the value that the source's text has, or `not in the grammar` where it has none, and LF. One LF at the end of
/// the source is no part of its text.
pub fn print_field<S: Source, O: Sink>(
    alloc: Global,
    kind: Kind,
    source: &mut S,
    out: &mut O,
) -> Ended
    requires fresh { (S.told source.old).taken ≡ [] }
    ensures prints { (rest : _) → IsRest (S.told source.new) rest
        → PrintsField kind (strip_last 10 ((S.told source.new).taken ++ rest)) (O.told out.old) (O.told out.new) result }
    ensures leaves { Leaves (S.told source.new).taken (S.told source.old).left (S.told source.new).left }
    ensures reads { CountsReads result (S.faults source.old) (S.faults source.new) }
    ensures writes { CountsWrites result (O.faults out.old) (O.faults out.new) }
    ensures took { Took result (S.told source.new) }
{
    let bytes = match read_input(alloc, source, FIELD_LIMIT) {
        Ok(bytes) => bytes,
        Err(InputFault::TooLong) => return Ended::TooLong,
        Err(InputFault::Failed) => return Ended::Failed,
        Err(InputFault::OutOfMemory) => return Ended::Memory,
    };
    match canonical_text(alloc, kind, without_newline(bytes.as_slice())) {
        Ok(mut line) => {
            if line.push(b'\n').is_err() {
                return Ended::Memory;
            }
            match write_all(out, line.as_slice()) {
                Ok(()) => Ended::Done,
                Err(_) => Ended::WriteFault,
            }
        }
        Err(FieldFault::NotInGrammar) => match write_all(out, b"not in the grammar\n") {
            Ok(()) => Ended::Refused,
            Err(_) => Ended::WriteFault,
        },
        Err(FieldFault::OutOfMemory) => Ended::Memory,
    }
}
