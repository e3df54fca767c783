//! How connections, readings and turns end.

/// How a connection ended.
#[derive(Drop)]
pub enum ConnectionEnd<F> {
    /// After a last response, or at the end of the input.
    Closed,
    /// After as many messages as a connection may bring.
    Quota,
    /// In the middle of a message.
    Truncated,
    /// The bytes are no message, and that was answered.
    Refused(F),
    /// A read failed.
    ReadFault,
    /// A write failed.
    WriteFault,
    /// Memory ran out.
    Memory,
}

/// Why there is no message.
#[derive(Drop)]
pub enum NoMessage<F> {
    /// The input ended in the middle of one.
    Truncated,
    /// The bytes are none.
    Refused(F),
    /// A read failed.
    Failed,
    /// Memory ran out.
    OutOfMemory,
}

/// Whether more messages may follow a turn.
#[derive(Clone, Copy, Debug, PartialEq, Eq)]
pub enum AfterTurn {
    MoreMayCome,
    /// Memory ran out, and that was said.
    OutOfMemory,
    /// A write failed, and a beginning of what was to be said went out.
    WriteFailed,
}
