//! What makes a server of a machine: what messages ask, and what is said to them.
ghost use Rattle.std.specs.Prelude.{◌≡◌, ℕ, List, IfOk};
ghost use Rattle.outside.specs.Outside.{HasSent, HasCause};
ghost use Rattle.histories.specs.Turns.{Face};
ghost use Rattle.serving.specs.MessageSteps.{IsStepOf, SaysAllReplies};

use crate::message_step::MessageStep;
use bytes_and_lists::memory::Mem;
use histories::machine::Machine;
use outside::device::{Failed, Sink};
use std::alloc::Global;

/// Finds what messages ask of a machine, one call each at most, and says what is responded. Writing takes no memory.
pub trait Server {
    /// The machine that is asked.
    type M: Machine;

    /// What comes on a connection.
    type Message;

    /// What is said to a message, before it is written.
    type Response: Drop;

    /// Memory that is used again from message to message of a connection.
    type Scratch: Drop;

    /// The rules of the machine.
    ghost rules: { Self → Self.M.Rules };

    /// How the machine looks to messages.
    ghost face: { Face Self.Message Self.M.Rules Self.M.Call Self.M.Reply };

    /// The bytes of a response.
    ghost text: { Self.Response → List ℕ };

    /// Which replies of the machine can be said.
    ghost can_say: { Self.M.Reply → Type 0 };

    /// Memory for the steps of one connection.
    fn scratch(&self, alloc: Global) -> Self::Scratch;

    /// What is said to a message at once, or which call it asks. `last` says whether the connection closes after the response.
    fn step(
        &self,
        alloc: Global,
        scratch: &mut Self::Scratch,
        message: &Self::Message,
        moment: u64,
        last: bool,
    ) -> Result<MessageStep<Self::Response, <Self::M as Machine>::Call>, Mem>
        ensures { IfOk result (IsStepOf Self.M.law face text (rules self.now) last message.now moment) };

    /// What is said of the machine's reply.
    fn respond(
        &self,
        alloc: Global,
        reply: &<Self::M as Machine>::Reply,
        last: bool,
    ) -> Result<Self::Response, Mem>
        requires { can_say reply.now }
        ensures { IfOk result (λ response. text response ≡ face.prints (rules self.now) last reply.now) };

    /// Writes a response.
    fn write_response<K: Sink>(&self, response: &Self::Response, out: &mut K) -> Result<(), Failed>
        ensures sent { HasSent (text response.now) (K.told out.old) (K.told out.new) result }
        ensures cause { HasCause (K.faults out.old) (K.faults out.new) result };

    /// Writes what is said to a message where memory ran out.
    fn write_busy<K: Sink>(&self, out: &mut K) -> Result<(), Failed>
        ensures sent { HasSent face.busy (K.told out.old) (K.told out.new) result }
        ensures cause { HasCause (K.faults out.old) (K.faults out.new) result };

    /// Each reply of a legal history can be said.
    ghost says_all: { SaysAllReplies Self.M.law can_say };
}
