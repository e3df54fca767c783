//! A core that remembers nonces, over a core that doesn't.
ghost use Rattle.std.specs.Prelude.{◌≡◌, ℕ, max, List, [], false, count_by, None};
ghost use Rattle.histories.specs.History.{now, notes_of};
ghost use Rattle.signed_calls.specs.declared.signed.SignedNote.{SignedNote};
ghost use Rattle.signed_calls.specs.Marks.{SignedEvent, is_remembered};
ghost use Rattle.signed_calls.specs.Remembering.{TellsOf, SignedStands, is_kept};
ghost use Rattle.signed_calls.proofs.RememberingSteps.{signed-renumbered};
ghost use Rattle.grant_machine.specs.Gnap.{SignedFits};

use crate::calls::{caller_of, leaves_nonce};
use bytes_and_lists::memory::Mem;
use gnap_model::calls::Reply;
use gnap_model::objects::ErrorCode;
use grant_machine::{Gnap, Grants, Passes};
use histories::machine::Core;
use random_words::RandomWords;
use signed_calls::nonces::Nonces;
use signed_calls::signed::Signed;

// For so many seconds after its creation a signature is taken, `mark_time` of the definitions.
const MARK_TIME: u64 = 300;

/// A core without marks, the nonces that are remembered, and the greatest moment.
#[derive(Drop)]
pub struct Remembering<C: Core, N: Nonces> {
    core: C,
    nonces: N,
    latest: u64,
}

impl<C: Core, N: Nonces> Remembering<C, N> {
    /// Lets time go on.
    fn advance(&mut self, moment: u64)
        ensures core { self.new.core ≡ self.old.core }
        ensures latest { self.new.latest ≡ max self.old.latest moment }
        ensures tells { (notes : List SignedNote) → TellsOf (N.until self.old.nonces) (N.many self.old.nonces) notes self.old.latest
            → TellsOf (N.until self.new.nonces) (N.many self.new.nonces) notes (max self.old.latest moment) }
    {
        if self.latest < moment {
            self.latest = moment;
            self.nonces.sweep(moment);
        }
    }
}

impl<C: Core<M = Grants> + Passes, N: Nonces> Remembering<C, N> {
    /// The machine with marks over a core of the machine without. Where that stands for the empty history and no nonce is remembered, so does this.
    pub fn new(core: C, nonces: N) -> Remembering<C, N>
        ensures rules { ⟦<Remembering<C, N> as Core>⟧.rules result ≡ C.rules core }
        ensures empty { C.stands core [] → ((k n : List ℕ) → N.until nonces k n ≡ None) → ((m : ℕ) → N.many nonces m ≡ 0)
            → ⟦<Remembering<C, N> as Core>⟧.stands result [] }
    {
        Remembering {
            core,
            nonces,
            latest: 0,
        }
    }

    /// How many nonces are remembered at the greatest moment so far. Takes no memory.
    pub fn marks(&self) -> usize
        requires { (h : List SignedEvent) × ⟦<Remembering<C, N> as Core>⟧.stands self.now h }
        ensures { (h : List SignedEvent) → ⟦<Remembering<C, N> as Core>⟧.stands self.now h → result ≡ count_by (is_kept (now h 0)) (notes_of h) }
    {
        self.nonces.count(self.latest)
    }
}

impl<C: Core<M = Grants> + Passes, N: Nonces> Core for Remembering<C, N> {
    type M = Gnap;

    ghost rules = { λ r. C.rules r.core };

    ghost stands = { λ r h. SignedStands SignedFits (C.stands r.core) (N.until r.nonces) (N.many r.nonces) (C.rules r.core) r.latest h };

    ghost frugal = { λ signed. C.frugal signed.call × (is_remembered signed.call ≡ false) };

    fn words_to_make(signed: &Signed) -> usize {
        C::words_to_make(&signed.call)
    }

    fn step(&mut self, moment: u64, draw: &RandomWords, signed: &Signed) -> Result<Reply, Mem> {
        self.advance(moment);
        // Each exit returns at once: a reply that they have in common is copied.
        match &signed.mark {
            None => return self.core.step(moment, draw, &signed.call),
            Some(mark) => {
                let key = caller_of(&signed.call);
                let until = mark.created + MARK_TIME;
                if until < self.latest || self.nonces.knows(key, &mark.nonce, self.latest) {
                    self.core.pass(moment);
                    return Ok(Reply::Error {
                        code: ErrorCode::InvalidClient,
                    });
                }
                if !leaves_nonce(&signed.call) {
                    return self.core.step(moment, draw, &signed.call);
                }
                match self.nonces.remember(key, &mark.nonce, until) {
                    Err(e) => {
                        self.core.pass(moment);
                        return Err(e);
                    }
                    Ok(()) => match self.core.step(moment, draw, &signed.call) {
                        Ok(reply) => return Ok(reply),
                        Err(e) => {
                            self.nonces.forget(key, &mark.nonce, until);
                            return Err(e);
                        }
                    },
                }
            }
        }
    }

    ghost legal = { λ r h stands. stands.legal };

    ghost renumbers = { λ r h k same stands.
        signed-renumbered SignedFits (C.stands r.core) (N.until r.nonces) (N.many r.nonces) (C.rules r.core) r.latest h k
        (λ a b. C.renumbers r.core a b) same stands };
}
