//! The bytes of a message.
ghost use Rattle.std.specs.Prelude.{◌≡◌, ◌++◌, IfOk, OnOk};
ghost use Rattle.std.specs.List.{flat_map};
ghost use Rattle.structured_fields.specs.Letters.{is_lower};
ghost use Rattle.signed_requests.specs.Requests.{spelt, spelt_line, body_length_line, request_bytes};

use bytes_and_lists::bytes::Bytes;
use bytes_and_lists::memory::Mem;
use bytes_and_lists::message::{Field, Fields, Message};
use itoa::Buffer;
use std::alloc::Global;

fn is_lower(c: u8) -> bool
    ensures { result ≡ is_lower c }
{
    b'a' <= c && c <= b'z'
}

// Adds the name, with a capital letter at its beginning and behind each `-`.
#[tactic(auto, unfolding(crate::specs::Requests::spelt))]
fn push_spelt(out: &mut Bytes, name: &[u8]) -> Result<(), Mem>
    ensures { OnOk result (out.new ≡ out.old ++ spelt name.now) }
{
    let mut begins = true;
    for c in name {
        let letter = if begins && is_lower(*c) { *c - 32 } else { *c };
        out.push(letter)?;
        begins = *c == b'-';
    }
    Ok(())
}

fn push_line(out: &mut Bytes, field: &Field) -> Result<(), Mem>
    ensures { OnOk result (out.new ≡ out.old ++ spelt_line field.now) }
{
    push_spelt(out, field.name.as_slice())?;
    out.extend(b": ")?;
    out.extend(field.value.as_slice())?;
    out.extend(b"\r\n")
}

#[tactic(auto, using(std::proofs::Common::append_assoc))]
fn push_lines(out: &mut Bytes, fields: &Fields) -> Result<(), Mem>
    ensures { OnOk result (out.new ≡ out.old ++ flat_map spelt_line fields.now) }
{
    for field in fields.as_slice() {
        push_line(out, field)?;
    }
    Ok(())
}

fn push_length(out: &mut Bytes, body: &Bytes) -> Result<(), Mem>
    ensures { OnOk result (out.new ≡ out.old ++ body_length_line body.now) }
{
    if body.len() == 0 {
        return Ok(());
    }
    out.extend(b"Content-Length: ")?;
    let mut buffer = Buffer::new();
    out.extend(buffer.format(body.len()).as_bytes())?;
    out.extend(b"\r\n")
}

// The bytes of a message: its fields' names are spelt with capital letters, and `Content-Length` stands behind them where there is a body.
#[tactic(auto, using(std::proofs::Common::append_assoc))]
pub(crate) fn request_bytes(alloc: Global, message: &Message) -> Result<Bytes, Mem>
    ensures { IfOk result (λ b. b ≡ request_bytes message.now) }
{
    let mut out = Bytes::from_slice(alloc, message.method.as_slice())?;
    out.extend(b" ")?;
    out.extend(message.target.as_slice())?;
    out.extend(b" HTTP/1.1\r\n")?;
    push_lines(&mut out, &message.fields)?;
    push_length(&mut out, &message.body)?;
    out.extend(b"\r\n")?;
    out.extend(message.body.as_slice())?;
    Ok(out)
}
