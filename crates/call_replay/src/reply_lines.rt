//! Replies as lines: the status, and where there is a body a space and the body.
ghost use Rattle.std.specs.Prelude.{◌≡◌, IfOk, IsUtf8};
ghost use Rattle.gnap_objects.specs.CallsFit.{ReplyFits};
ghost use Rattle.call_replay.specs.ReplyLines.{line_of, reply_line, error_line};

use bytes_and_lists::bytes::Bytes;
use bytes_and_lists::memory::Mem;
use gnap_model::calls::Reply;
use gnap_model::objects::{ErrorCode, Setup};
use gnap_replies::{print_error, print_reply};
use std::alloc::Global;

fn line(alloc: Global, status: u16, body: Option<Bytes>) -> Result<Bytes, Mem>
    ensures { IfOk result (λ text. text ≡ line_of (status, body)) }
{
    let mut text = Bytes::from_slice(alloc, itoa::Buffer::new().format(status).as_bytes())?;
    if let Some(body) = body {
        text.push(b' ')?;
        text.extend(body.as_slice())?;
    }
    text.push(b'\n')?;
    Ok(text)
}

/// The line that shows a reply.
#[tactic(auto, unfolding(crate::specs::ReplyLines::reply_line))]
pub fn reply_line(alloc: Global, setup: &Setup, reply: &Reply) -> Result<Bytes, Mem>
    requires base { IsUtf8 setup.now.base }
    requires front { IsUtf8 setup.now.front }
    requires reply { ReplyFits reply.now }
    ensures { IfOk result (λ text. text ≡ reply_line setup.now reply.now) }
{
    let (status, body) = print_reply(alloc, setup, reply)?;
    line(alloc, status, body)
}

/// The line that shows an error.
#[tactic(auto, unfolding(crate::specs::ReplyLines::error_line))]
pub fn error_line(alloc: Global, code: ErrorCode) -> Result<Bytes, Mem>
    ensures { IfOk result (λ text. text ≡ error_line code) }
{
    let (status, body) = print_error(alloc, code)?;
    line(alloc, status, body)
}
