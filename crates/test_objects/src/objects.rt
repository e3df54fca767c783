//! The table of JSON texts. A line is the name of a reader of `gnap_objects` and, behind a space, the text; without a space there is no text. Told is what
//! the reader gives, or its first fault. In a text `<N|piece>` stands for N times the piece, in each of which `#` is its place, counted from 0.

ghost use Rattle.serde_json.specs.View.{view};
ghost use Rattle.json_objects.specs.Bodies.{IsBody};

use crate::{repeated, shown};
use gnap_objects::{
    ObjectFault, SetupFault, read_code, read_continue, read_decide, read_grant, read_handle,
    read_introspect, read_rotate, read_setup,
};
use json_objects::{BodyFault, read_body};
use serde_json::Value;
use std::alloc::{AllocError, Global};

/// Why a reader gave nothing.
#[derive(Drop)]
pub enum Refusal {
    /// The text is no JSON object with whole numbers, or the reader has no text.
    NoObject,
    Object(ObjectFault),
    Setup(SetupFault),
    OutOfMemory,
}

impl From<AllocError> for Refusal {
    fn from(_e: AllocError) -> Refusal {
        Refusal::OutOfMemory
    }
}

impl From<BodyFault> for Refusal {
    fn from(fault: BodyFault) -> Refusal {
        match fault {
            BodyFault::OutOfMemory => Refusal::OutOfMemory,
            BodyFault::NotAnObject | BodyFault::Number => Refusal::NoObject,
        }
    }
}

impl From<ObjectFault> for Refusal {
    fn from(fault: ObjectFault) -> Refusal {
        Refusal::Object(fault)
    }
}

impl From<SetupFault> for Refusal {
    fn from(fault: SetupFault) -> Refusal {
        Refusal::Setup(fault)
    }
}

// What the readers give that do without a body.
fn of_body_or_none(alloc: Global, reader: &str, body: Option<&Value>) -> Result<String, Refusal> {
    match reader {
        "continue" => {
            let read = read_continue(alloc, body)?;
            Ok(shown::optional(alloc, read.reference.as_ref())?)
        }
        "rotate" => Ok(shown::optional(alloc, read_rotate(alloc, body)?.as_ref())?),
        _ => Err(Refusal::NoObject),
    }
}

fn of_body(alloc: Global, reader: &str, body: &Value) -> Result<String, Refusal>
    requires { IsBody (view body.now) }
{
    match reader {
        "grant" => Ok(shown::request(alloc, &read_grant(alloc, body, false)?)?),
        "modify" => Ok(shown::request(alloc, &read_grant(alloc, body, true)?)?),
        "introspect" => Ok(shown::introspection(alloc, &read_introspect(alloc, body)?)?),
        "look" => Ok(shown::quoted(alloc, read_handle(alloc, body)?.as_slice())?),
        "find_code" => Ok(shown::quoted(alloc, read_code(alloc, body)?.as_slice())?),
        "decide" => Ok(shown::decision(alloc, &read_decide(alloc, body)?)?),
        _ => of_body_or_none(alloc, reader, Some(body)),
    }
}

fn of_text(alloc: Global, reader: &str, text: &[u8]) -> Result<String, Refusal> {
    if reader == "setup" {
        return Ok(shown::setup(alloc, &read_setup(alloc, text)?)?);
    }
    of_body(alloc, reader, &read_body(alloc, text)?)
}

fn read(alloc: Global, line: &str) -> Result<String, Refusal> {
    match line.split_once(' ') {
        Some((reader, text)) => {
            let text = repeated::written_out(alloc, text)?;
            of_text(alloc, reader, text.as_bytes())
        }
        None => of_body_or_none(alloc, line, None),
    }
}

/// What the reader of a line gives of its text.
pub fn answer(alloc: Global, line: &str) -> Result<String, AllocError> {
    match read(alloc, line) {
        Ok(text) => Ok(text),
        Err(refusal) => shown::refusal(alloc, &refusal),
    }
}
