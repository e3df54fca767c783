//! What a message is to a machine.

/// Answered at once, or a call.
#[derive(Drop)]
pub enum MessageStep<T, C> {
    Say(T),
    Ask(C),
}
