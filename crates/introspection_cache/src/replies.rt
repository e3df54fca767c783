//! The replies that are kept, under the texts of their questions.
ghost use Rattle.std.specs.Prelude.{◌≡◌, ◌∷◌, length, option_copied, Some, None, OnOk, OnErr};
ghost use Rattle.std.specs.Map.{lookup};
ghost use Rattle.std.specs.Str.{bytes_eq};
ghost use Rattle.lru.specs.LruCache.{promoted};
ghost use Rattle.introspection_cache.specs.Caching.{fresh_to, to_others, may_keep, with_reply};
ghost use Rattle.introspection_cache.specs.Seen.{kept_in};

use crate::kept_reply::{KeptReply, without_spare_room};
use bytes_and_lists::bytes::Bytes;
use bytes_and_lists::memory::Mem;
use lru::LruCache;

/// The most bytes that a question and its reply have together where they are kept.
pub const LONGEST: usize = 13_500;

pub(crate) type Replies = LruCache<Vec<u8>, KeptReply>;

/// The fresh reply to a question.
#[tactic(auto, using(crate::proofs::SeenKept::fresh_there, crate::proofs::SeenKept::fresh_no_more, crate::proofs::SeenKept::fresh_nowhere))]
pub(crate) fn fresh_to<'r>(replies: &'r Replies, text: &[u8], now: u64) -> Option<&'r KeptReply>
    ensures { option_copied result ≡ fresh_to text.now now (kept_in replies.now.entries) }
{
    match replies.peek(text) {
        Some(kept) => if kept.is_fresh(now) { Some(kept) } else { None },
        None => None,
    }
}

/// Puts the reply to a question first.
pub(crate) fn promote(replies: &mut Replies, text: &[u8])
    ensures kept { kept_in replies.new.entries ≡ promoted (bytes_eq text.now) (kept_in replies.old.entries) }
    ensures capacity { replies.new.cap ≡ replies.old.cap }
{
    replies.promote(text);
}

/// Takes out the reply to a question, where there is one.
pub(crate) fn forget(replies: &mut Replies, text: &[u8])
    ensures kept { kept_in replies.new.entries ≡ to_others text.now (kept_in replies.old.entries) }
    ensures gone { lookup (bytes_eq text.now) (kept_in replies.new.entries) ≡ None }
    ensures capacity { replies.new.cap ≡ replies.old.cap }
{
    // It also says that no question stands twice.
    let _many = replies.len();
    replies.pop(text);
}

fn may_keep(text: &Bytes, kept: &KeptReply) -> bool
    ensures { result ≡ may_keep text.now kept.now }
{
    text.len() <= LONGEST && kept.reply.len() <= LONGEST - text.len()
}

/// Keeps the reply to a question that none is kept to, without spare room. A long one isn't kept. An `Err` changes nothing.
pub(crate) fn keep(replies: &mut Replies, text: Bytes, kept: KeptReply) -> Result<(), Mem>
    requires new { lookup (bytes_eq text) (kept_in replies.old.entries) ≡ None }
    ensures ok { OnOk result (kept_in replies.new.entries ≡ with_reply replies.old.cap text kept (kept_in replies.old.entries)) }
    ensures err { OnErr result (replies.new.entries ≡ replies.old.entries) }
    ensures capacity { replies.new.cap ≡ replies.old.cap }
{
    if may_keep(&text, &kept) {
        let text = without_spare_room(text);
        let kept = kept.fitted();
        match replies.put(text.into_vec()?, kept) {
            Ok(_) => Ok(()),
            Err(_) => Err(Mem),
        }
    } else {
        Ok(())
    }
}
