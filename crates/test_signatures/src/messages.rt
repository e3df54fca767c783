//! The messages of the tables: how a line lays them out, how they are told, and the keys that sign them.

use base64::engine::general_purpose::STANDARD;
use bytes_and_lists::bytes::Bytes;
use bytes_and_lists::memory::Mem;
use bytes_and_lists::message::{Field, Fields, Message};
use hmac_key::Keyring;
use message_signature::{SigFault, SignFault};
use std::alloc::Global;

// The keys of the table. The last is that of RFC 9421, appendix B.1.5.
const KEYS: [(&str, &str); 3] = [
    ("c1", "c2VjcmV0LWtleS1vZi1jMQ=="),
    ("c2", "c2VjcmV0LWtleS1vZi1jMg=="),
    (
        "test-shared-secret",
        "uzvJfB4u3N0Jy4T7NZ75MDVcr8zSTInedJtkgcu46YW4XByzNJjxBdtjUkdJPBtbmHhIDi6pcl8jsasjlTMtDQ==",
    ),
];

/// The parts of a line that are left; they stand between `|`.
#[derive(Drop)]
pub struct Parts<'a> {
    left: Option<&'a str>,
}

impl<'a> Parts<'a> {
    pub fn of(line: &'a str) -> Parts<'a> {
        Parts { left: Some(line) }
    }

    pub fn next(&mut self) -> Option<&'a str> {
        let line = self.left?;
        match line.split_once('|') {
            Some((part, left)) => {
                self.left = Some(left);
                Some(part)
            }
            None => {
                self.left = None;
                Some(line)
            }
        }
    }

    pub fn text(&mut self) -> &'a str {
        self.next().unwrap_or("")
    }

    pub fn bytes(&mut self, alloc: Global) -> Result<Bytes, Mem> {
        Bytes::from_slice(alloc, self.text().as_bytes())
    }

    pub fn number(&mut self) -> u64 {
        self.text().parse::<u64>().unwrap_or(0)
    }
}

fn field_of(alloc: Global, part: &str) -> Result<Field, Mem> {
    let (name, value) = part.split_once(": ").unwrap_or((part, ""));
    Ok(Field {
        name: Bytes::from_slice(alloc, name.as_bytes())?,
        value: Bytes::from_slice(alloc, value.as_bytes())?,
    })
}

fn fields_in(alloc: Global, parts: &mut Parts) -> Result<Fields, Mem> {
    let mut fields = Fields::new(alloc);
    for _ in 0..64 {
        let Some(part) = parts.next() else {
            return Ok(fields);
        };
        fields.push(field_of(alloc, part)?)?;
    }
    Ok(fields)
}

/// A message, and its base.
pub fn message_in(alloc: Global, parts: &mut Parts) -> Result<(Bytes, Message), Mem> {
    let base = parts.bytes(alloc)?;
    let message = Message {
        method: parts.bytes(alloc)?,
        target: parts.bytes(alloc)?,
        body: parts.bytes(alloc)?,
        fields: fields_in(alloc, parts)?,
        last: false,
    };
    Ok((base, message))
}

// The secret stands in base64.
fn add_key(alloc: Global, ring: &mut Keyring, id: &str, secret: &str) -> Result<(), Mem> {
    let Ok(secret) = STANDARD.decode(alloc, secret.as_bytes()) else {
        return Err(Mem);
    };
    ring.add(
        &Bytes::from_slice(alloc, id.as_bytes())?,
        &Bytes::from_vec(secret),
    )?;
    Ok(())
}

/// The ring of these keys.
pub fn ring(alloc: Global) -> Result<Keyring, Mem> {
    let mut ring = Keyring::new(alloc);
    for (id, secret) in KEYS {
        add_key(alloc, &mut ring, id, secret)?;
    }
    Ok(ring)
}

pub fn text_of(alloc: Global, bytes: &[u8]) -> Result<String, Mem> {
    Ok(String::from_str(alloc, std::str::from_utf8(bytes).unwrap_or("no text"))?)
}

// Appends the field, on a line of its own.
fn push_field(alloc: Global, out: &mut String, field: &Field) -> Result<(), Mem> {
    if !out.is_empty() {
        out.push('\n')?;
    }
    out.push_str(text_of(alloc, field.name.as_slice())?.as_str())?;
    out.push_str(": ")?;
    out.push_str(text_of(alloc, field.value.as_slice())?.as_str())?;
    Ok(())
}

// The fields from a place on, one a line.
fn fields_from(alloc: Global, fields: &Fields, from: usize) -> Result<String, Mem> {
    let mut out = String::new(alloc);
    for field in fields.as_slice().iter().skip(from) {
        push_field(alloc, &mut out, field)?;
    }
    Ok(out)
}

/// What signing came to: the fields that it added behind so many, or why it added none.
pub fn added(
    alloc: Global,
    outcome: Result<(), SignFault>,
    message: &Message,
    before: usize,
) -> Result<String, Mem> {
    match outcome {
        Ok(()) => fields_from(alloc, &message.fields, before),
        Err(SignFault::HasSignature) => Ok(String::from_str(alloc, "HasSignature")?),
        Err(SignFault::OutOfMemory) => Err(Mem),
    }
}

/// Why a signature doesn't pass.
pub fn refused(alloc: Global, fault: SigFault) -> Result<String, Mem> {
    match fault {
        SigFault::OutOfMemory => Err(Mem),
        fault => Ok(format!(in alloc; "{fault:?}")?),
    }
}
