//! A reader of the bodies of requests.
ghost use Rattle.std.specs.Prelude.{◌≡◌, IfOk};
ghost use Rattle.serde_json.specs.View.{view};
ghost use Rattle.json_objects.specs.declared.body.BodyFault.TheVariants.{OutOfMemory};
ghost use Rattle.json_objects.specs.Bodies.{IsBody, body_of};
ghost use Rattle.json_objects.specs.Reading.{Gives};

use crate::plain_bodies::read_plain;
use crate::read_fault::ReadFault;
use crate::value_reading::read_text;
use json::Scratch;
use json_objects::{BodyFault, has_fraction};
use serde_json::Value;
use std::alloc::Global;

/// Reads bodies one after another, all with one room: 16 KB that it holds itself, so lend it rather than move it, and memory that grows to the length
/// of the longest body at most. What it gives for a body doesn't depend on those before.
#[derive(Drop)]
pub struct BodyReader {
    scratch: Scratch,
}

impl BodyReader {
    /// It takes no memory from `alloc` yet.
    pub fn new(alloc: Global) -> BodyReader {
        BodyReader {
            scratch: Scratch::new(alloc),
        }
    }

    /// The one JSON object that the bytes are, in which each number is whole. Where a member stands twice, the last one counts, and a number under an
    /// earlier one is not looked at. After an `Err` the reader is ready for the next body.
    pub fn read(&mut self, alloc: Global, text: &[u8]) -> Result<Value, BodyFault>
        ensures value { Gives OutOfMemory view result (body_of text.now) }
        ensures body { IfOk result (λ v. IsBody (view v)) }
    {
        if let Some(value) = read_plain(alloc, text) {
            return Ok(value);
        }
        self.read_tokens(alloc, text)
    }

    /// The same of any bytes, token by token.
    #[inline(never)]
    fn read_tokens(&mut self, alloc: Global, text: &[u8]) -> Result<Value, BodyFault>
        ensures value { Gives OutOfMemory view result (body_of text.now) }
        ensures body { IfOk result (λ v. IsBody (view v)) }
    {
        let Ok(text) = str::from_utf8(text) else {
            return Err(BodyFault::NotAnObject);
        };
        match read_text(alloc, text, &mut self.scratch) {
            Ok(value) => {
                if !value.is_object() {
                    return Err(BodyFault::NotAnObject);
                }
                if has_fraction(&value) {
                    return Err(BodyFault::Number);
                }
                Ok(value)
            }
            Err(ReadFault::Refused) => Err(BodyFault::NotAnObject),
            Err(ReadFault::OutOfMemory) => Err(BodyFault::OutOfMemory),
        }
    }
}
