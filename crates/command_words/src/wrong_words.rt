//! What words of a command have to be, and what is wrong with words that are no command.

/// What a word of a command has to be.
#[derive(Clone, Copy)]
pub enum WordForm {
    /// A path, an address, an id or a text: not empty, and without `-` at its beginning.
    Argument,
    /// `item`, `list` or `dictionary`.
    FieldKind,
    /// `sha-256` or `sha-512`.
    HashMethod,
    /// A moment before the year 10000, in seconds since 1970.
    Moment,
    /// 1 to 64 letters, digits, `.`, `_` or `-`, of which the first is no `-`.
    Nonce,
    /// A number of workers, 1 to 64.
    Workers,
    /// A number of connections, 0 to 1,000,000.
    Connections,
    /// A number of grants, 1 to 100,000.
    Grants,
    /// A number of replies that may be kept, 1 to 16,384.
    Replies,
    /// A number of 64 bits.
    Start,
}

/// Why words are no command.
#[derive(Drop)]
pub enum WrongWords {
    /// There is no word, or the first one names no command.
    NoCommand,
    /// The command takes another number of words.
    Count,
    /// The word at this place after the command's name, counted from 0, isn't of this form.
    Word(usize, WordForm),
    OutOfMemory,
}
