//! The bytes of a message.
ghost use Rattle.std.specs.Prelude.{◌≡◌, ◌++◌, IfOk, OnOk, flat_map};
ghost use Rattle.signed_files.specs.SignedText.{request_line, field_line, message_text};

use bytes_and_lists::bytes::Bytes;
use bytes_and_lists::memory::Mem;
use bytes_and_lists::message::{Field, Fields, Message};
use std::alloc::Global;

fn push_request_line(text: &mut Bytes, message: &Message) -> Result<(), Mem>
    ensures { OnOk result (text.new ≡ text.old ++ request_line message.now) }
{
    text.extend(message.method.as_slice())?;
    text.extend(b" ")?;
    text.extend(message.target.as_slice())?;
    text.extend(b" HTTP/1.1\r\n")
}

fn push_field(text: &mut Bytes, field: &Field) -> Result<(), Mem>
    ensures { OnOk result (text.new ≡ text.old ++ field_line field.now) }
{
    text.extend(field.name.as_slice())?;
    text.extend(b": ")?;
    text.extend(field.value.as_slice())?;
    text.extend(b"\r\n")
}

fn push_fields(text: &mut Bytes, fields: &Fields) -> Result<(), Mem>
    ensures { OnOk result (text.new ≡ text.old ++ flat_map field_line fields.now) }
{
    for field in fields.as_slice() {
        push_field(text, field)?;
    }
    Ok(())
}

/// The bytes of a message, as a request of HTTP/1.1.
pub(crate) fn message_text(alloc: Global, message: &Message) -> Result<Bytes, Mem>
    ensures { IfOk result (λ text. text ≡ message_text message.now) }
{
    let mut text = Bytes::new(alloc);
    push_request_line(&mut text, message)?;
    push_fields(&mut text, &message.fields)?;
    text.extend(b"\r\n")?;
    text.extend(message.body.as_slice())?;
    Ok(text)
}
