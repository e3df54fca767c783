//! Laws of streams and replies. The functions do nothing; their contracts are the laws.
ghost use Rattle.http_edge.specs.Laws.{IsOneMessage, MessageStays, RefusalStays, OutcomesDiffer, MessagesStay, IsOneReply, WrittenIsRead};

/// A stream begins with one message at most, whatever follows.
pub fn one_message()
    ensures { IsOneMessage }
{}

/// A message stays one, whatever follows.
pub fn message_stays()
    ensures { MessageStays }
{}

/// A refusal stays the same one, whatever follows.
pub fn refusal_stays()
    ensures { RefusalStays }
{}

/// A message, a refusal and less than a whole message exclude each other.
pub fn outcomes_differ()
    ensures { OutcomesDiffer }
{}

/// What holds of the messages that a stream begins with, one behind another.
pub fn messages_stay()
    ensures { MessagesStay }
{}

/// Bytes are at most one reply.
pub fn one_reply()
    ensures { IsOneReply }
{}

/// What `write_reply` writes is read by `read_reply`, with its status and its body.
pub fn written_is_read()
    ensures { WrittenIsRead }
{}
