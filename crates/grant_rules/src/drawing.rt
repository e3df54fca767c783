//! What an entry draws.
ghost use Rattle.std.specs.Prelude.{◌≡◌, ◌<◌, ◌-◌, IfOk};
ghost use Rattle.gnap_model.specs.Actions.{or_zeros};
ghost use Rattle.gnap_model.specs.declared.calls.Reply.TheVariants.{Pending};
ghost use Rattle.grant_rules.specs.Drawn.{token_drawn, round_drawn, finish_told};

use crate::limits::{INTERACTION_TIME, ROUND_TIME, TOKEN_TIME};
pub use crate::supply::Supply;
use bytes_and_lists::bytes::Bytes;
use bytes_and_lists::memory::{Duplicate, Mem};
use drawn_texts::value_text;
use gnap_model::boxed::Boxed;
use gnap_model::calls::{FinishOut, Reply};
use gnap_model::notes::{RoundNote, TokenNote};
use gnap_model::objects::{Finish, Modes};
use gnap_model::rights::Rights;
use std::alloc::Global;

impl<'a> Supply<'a> {
    ghost use Rattle.gnap_model.specs.Values.{drawn};

    /// The value with this index among those of the entry, counted from 0. Its serial is so many after the entry's first one, and two of the
    /// words belong to it.
    pub fn value(&self, index: usize) -> [u8; 32]
        requires { index < 24 }
        ensures { result ≡ drawn self.now.first self.now.words.now index }
    {
        value_text(
            self.first + index as u64,
            self.words.word(2 * index),
            self.words.word(2 * index + 1),
        )
    }

    /// A token of a grant, with this label and these rights: its value is that of the entry with this index, its management value the next one
    /// (RFC 9635, section 3.2.1). It lasts `TOKEN_TIME` seconds, if its grant does.
    pub fn token(
        &self,
        grant: u64,
        key: &Bytes,
        end: u64,
        label: Option<Bytes>,
        rights: Rights,
        bearer: bool,
        index: usize,
    ) -> Result<TokenNote, Mem>
        requires { index < 23 }
        ensures { IfOk result (λ token. token ≡ token_drawn self.now grant key.now end (record { label = label; rights = rights; bearer = bearer }) index) }
    {
        Ok(TokenNote {
            serial: self.first + index as u64,
            grant,
            label,
            rights,
            bearer,
            key: key.copy()?,
            issued: self.moment,
            until: (self.moment + TOKEN_TIME).min(end),
            value: self.value(index),
            manage: self.value(index + 1),
        })
    }

    /// A new round of interaction of a grant, with this user code; the nonce is drawn where the client asks to be told of the end (RFC 9635, section 3.3).
    pub fn round(
        &self,
        grant: u64,
        end: u64,
        modes: &Modes,
        code: Option<[u8; 8]>,
    ) -> Result<RoundNote, Mem>
        ensures { IfOk result (λ round. round ≡ round_drawn self.now grant end modes.now code) }
    {
        let nonce = if modes.finish.is_some() {
            Some(self.value(2))
        } else {
            None
        };
        Ok(RoundNote {
            grant,
            until: (self.moment + INTERACTION_TIME).min(end),
            over: self.moment + ROUND_TIME,
            modes: modes.copy()?,
            handle: self.value(1),
            code,
            nonce,
        })
    }

    /// What the front needs to tell the client that the interaction with this nonce is over, where the client asked for that (RFC 9635, section 4.2).
    pub fn ending(
        &self,
        finish: &Option<Finish>,
        nonce: Option<[u8; 32]>,
    ) -> Result<Option<FinishOut>, Mem>
        ensures { IfOk result (λ ending. ending ≡ finish_told self.now nonce finish.now) }
    {
        match finish {
            Some(finish) => Ok(Some(FinishOut {
                finish: finish.copy()?,
                server_nonce: nonce.unwrap_or([0; 32]),
                reference: self.value(0),
            })),
            None => Ok(None),
        }
    }
}

/// The reply that the user is asked in this round, with a new continuation value (RFC 9635, sections 3.1 and 3.3).
pub fn pending_reply(
    alloc: Global,
    round: &RoundNote,
    now: u64,
    door: [u8; 32],
    instance: Option<Bytes>,
) -> Result<Reply, Mem>
    ensures { IfOk result (λ reply. reply ≡ Pending door round.now.modes round.now.handle (or_zeros 8 round.now.code) (or_zeros 32 round.now.nonce)
        (round.now.until - now) instance) }
{
    Ok(Reply::Pending {
        door,
        modes: Boxed::new(alloc, round.modes.copy()?)?,
        handle: round.handle,
        code: round.code.unwrap_or([0; 8]),
        nonce: round.nonce.unwrap_or([0; 32]),
        expires_in: round.until.saturating_sub(now),
        instance,
    })
}
