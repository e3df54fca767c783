//! How messages are read off connections, and what is written where there is none.
ghost use Rattle.std.specs.Prelude.{◌≡◌, ℕ, List, [], ◌++◌};
ghost use Rattle.outside.specs.Outside.{HasSent, HasCause};
ghost use Rattle.serving.specs.Connections.{Wire};
ghost use Rattle.serving.specs.Reading.{ReadsMessage, HasReadCause};

use crate::ends::NoMessage;
use outside::device::{Failed, Sink, Source};
use std::alloc::Global;

/// Reads messages off connections, and writes what is said where there is none. Writing takes no memory.
pub trait MessageReader {
    /// What comes on a connection.
    type Message: Drop;

    /// Why bytes are no message.
    type Fault: Drop;

    /// Bytes that were read off a connection and are of no message yet.
    type Held: Drop;

    /// How messages stand in bytes.
    ghost wire: { Wire Self.Message Self.Fault };

    /// The bytes that are held.
    ghost held_bytes: { Self.Held → List ℕ };

    /// A message at the beginning of bytes stays where more bytes follow.
    ghost stays: { (bytes : List ℕ) (m : Self.Message) (rest more : List ℕ) → wire.begins bytes m rest → wire.begins (bytes ++ more) m (rest ++ more) };

    /// Holds no bytes. This takes no memory.
    fn hold_none(&self, alloc: Global) -> Self::Held
        ensures { held_bytes result ≡ [] };

    /// Reads the next message. What was read and isn't of it is held.
    fn next_message<S: Source>(
        &self,
        alloc: Global,
        source: &mut S,
        held: &mut Self::Held,
    ) -> Result<Option<Self::Message>, NoMessage<Self::Fault>>
        ensures reads { ReadsMessage wire (held_bytes held.old) (held_bytes held.new) (S.told source.old) (S.told source.new) result }
        ensures cause { HasReadCause (S.faults source.old) (S.faults source.new) result };

    /// Whether the connection closes after the response to this message.
    fn is_last(&self, message: &Self::Message) -> bool
        ensures { result ≡ wire.is_last message.now };

    /// Writes what is said where memory ran out while a message was read.
    fn write_starved<K: Sink>(&self, out: &mut K) -> Result<(), Failed>
        ensures sent { HasSent wire.starved (K.told out.old) (K.told out.new) result }
        ensures cause { HasCause (K.faults out.old) (K.faults out.new) result };

    /// Writes what is said to bytes that are no message.
    fn write_refusal<K: Sink>(&self, fault: &Self::Fault, out: &mut K) -> Result<(), Failed>
        ensures sent { HasSent (wire.refusal fault.now) (K.told out.old) (K.told out.new) result }
        ensures cause { HasCause (K.faults out.old) (K.faults out.new) result };
}
