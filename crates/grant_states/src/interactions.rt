//! By what an interaction is found (RFC 9635, section 4.1).
ghost use Rattle.std.specs.Prelude.{◌≡◌};
ghost use Rattle.grant_states.specs.Interactions.{is_called, is_open_by};

use gnap_tables::rows::{KeptRound, Round};

/// By what the consent front knows an interaction.
#[derive(Clone, Copy)]
pub enum InteractionName<'a> {
    /// By its handle.
    Handle(&'a [u8]),
    /// By its user code (RFC 9635, section 3.3.3).
    Code(&'a [u8; 8]),
}

// The round has this name.
fn has_name(round: &Round, name: InteractionName) -> bool
    ensures { result ≡ is_called name.entry round.now }
{
    match name {
        InteractionName::Handle(handle) => round.handle.as_slice() == handle,
        InteractionName::Code(code) => match &round.code {
            Some(drawn) => drawn == code,
            None => false,
        },
    }
}

/// The user may still decide, and the front knows the interaction by this name.
pub fn is_open(round: &Option<KeptRound>, now: u64, name: InteractionName) -> bool
    ensures { result ≡ is_open_by name.entry now round.now }
{
    match round {
        Some(kept) => {
            let round = kept.round();
            round.decision.is_none() && now < round.until && has_name(round, name)
        }
        None => false,
    }
}
