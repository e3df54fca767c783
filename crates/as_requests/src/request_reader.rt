//! What reads requests.

use body_reading::BodyReader;
use message_signature::Verifier;
use std::alloc::Global;

/// Reads requests one after another: what one worker keeps from request to request. No answer depends on it. It holds 16 KB itself, so lend it rather than move
/// it.
#[derive(Drop)]
pub struct RequestReader {
    /// Reads their bodies.
    pub bodies: BodyReader,
    /// Verifies their signatures.
    pub verifier: Verifier,
}

impl RequestReader {
    /// It takes no memory from `alloc` yet.
    pub fn new(alloc: Global) -> RequestReader {
        RequestReader {
            bodies: BodyReader::new(alloc),
            verifier: Verifier::new(),
        }
    }
}
