//! Messages that are signed or verified, printed.
ghost use Rattle.std.specs.Prelude.{◌≡◌, ◌≢◌, ◌<◌, ◌^◌, true, [], ◌++◌, IfOk, IfSome};
ghost use Rattle.std.specs.Option.{option_copied};
ghost use Rattle.outside.specs.Outside.{IsAtEnd, IsRest, Leaves};
ghost use Rattle.message_signature.specs.Marks.{is_nonce};
ghost use Rattle.gnap_objects.specs.Setups.{IsSetup};
ghost use Rattle.signed_files.specs.SignedText.{SignsFile};
ghost use Rattle.signed_files.specs.Verdicts.{VerifiesFile};
ghost use Rattle.command_inputs.specs.Ends.{CountsReads, CountsWrites};
ghost use Rattle.printed_answers.specs.MessageAnswers.{PrintsFault, PrintsFor, refused_line};

use bytes_and_lists::bytes::Bytes;
use bytes_and_lists::memory::Mem;
use command_inputs::{Ended, print_text};
use gnap_model::objects::Setup;
use outside::device::{Sink, Source, write_all};
use signed_files::{FileFault, sign_file, verify_file};
use std::alloc::Global;

fn refused_line(alloc: Global, name: &[u8]) -> Result<Bytes, Mem>
    ensures { IfOk result (λ line. line ≡ refused_line name.now) }
{
    let mut line = Bytes::from_slice(alloc, b"refused ")?;
    line.extend(name)?;
    line.push(b'\n')?;
    Ok(line)
}

fn print_fault<O: Sink>(alloc: Global, fault: FileFault, out: &mut O) -> Ended
    ensures prints { PrintsFault fault (O.told out.old) (O.told out.new) result }
    ensures writes { CountsWrites result (O.faults out.old) (O.faults out.new) }
{
    match fault {
        FileFault::Refused(name) => match refused_line(alloc, name) {
            Ok(line) => match write_all(out, line.as_slice()) {
                Ok(()) => Ended::Refused,
                Err(_) => Ended::WriteFault,
            },
            Err(Mem) => Ended::Memory,
        },
        FileFault::ReadFault => Ended::Failed,
        FileFault::OutOfMemory => Ended::Memory,
    }
}

/// Prints the message that the source has with the signature of the setup's key with this id, or `refused`, the fault's name and LF. Where there is a nonce,
/// of 1 to 64 letters, digits, `.`, `_` or `-`, the signature has it.
pub fn print_signed<S: Source, O: Sink>(
    alloc: Global,
    setup: &Setup,
    key: &Bytes,
    created: u64,
    nonce: Option<&Bytes>,
    source: &mut S,
    out: &mut O,
) -> Ended
    requires setup { IsSetup setup.now }
    requires created { created < 10 ^ 15 }
    requires nonce { IfSome (option_copied nonce) (λ n. is_nonce n ≡ true) }
    requires fresh { (S.told source.old).taken ≡ [] }
    ensures prints { (rest : _) → IsRest (S.told source.new) rest
        → PrintsFor (SignsFile setup.now key.now created (option_copied nonce.entry) ((S.told source.new).taken ++ rest)) (O.told out.old) (O.told out.new)
        result }
    ensures leaves { Leaves (S.told source.new).taken (S.told source.old).left (S.told source.new).left }
    ensures reads { CountsReads result (S.faults source.old) (S.faults source.new) }
    ensures writes { CountsWrites result (O.faults out.old) (O.faults out.new) }
    ensures limited { result ≢ Ended.TooLong }
    ensures end { result ≡ Ended.Done → IsAtEnd (S.told source.new) }
{
    match sign_file(alloc, setup, key, created, nonce, source) {
        Ok(text) => print_text(&text, out),
        Err(fault) => print_fault(alloc, fault, out),
    }
}

/// Prints `key `, the id of the setup's key that signed the message which the source has, and LF; or `refused`, the fault's name and LF.
pub fn print_verdict<S: Source, O: Sink>(
    alloc: Global,
    setup: &Setup,
    now: u64,
    source: &mut S,
    out: &mut O,
) -> Ended
    requires fresh { (S.told source.old).taken ≡ [] }
    ensures prints { (rest : _) → IsRest (S.told source.new) rest
        → PrintsFor (VerifiesFile setup.now now ((S.told source.new).taken ++ rest)) (O.told out.old) (O.told out.new) result }
    ensures leaves { Leaves (S.told source.new).taken (S.told source.old).left (S.told source.new).left }
    ensures reads { CountsReads result (S.faults source.old) (S.faults source.new) }
    ensures writes { CountsWrites result (O.faults out.old) (O.faults out.new) }
    ensures limited { result ≢ Ended.TooLong }
    ensures end { result ≡ Ended.Done → IsAtEnd (S.told source.new) }
{
    match verify_file(alloc, setup, now, source) {
        Ok(text) => print_text(&text, out),
        Err(fault) => print_fault(alloc, fault, out),
    }
}
