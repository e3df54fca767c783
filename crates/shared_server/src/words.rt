//! The words of the table. Eight of them fill a line of a processor's cache, and each one that is written has a line of its own: who looks at one word
//! doesn't take the line of another from who writes that.
ghost use Rattle.std.specs.Prelude.{◌<◌};

/// The next ticket to be drawn.
pub(crate) const TICKET: usize = 0;

/// The ticket that has its turn.
pub(crate) const SERVING: usize = 8;

/// The first of 64 words for sleeping.
const SLEEPING: usize = 16;

/// How many words there are.
pub(crate) const WORDS: usize = 528;

/// The word that who has the ticket sleeps on. No two of the tickets that are out have one word, since at most 64 are out.
pub(crate) fn word_of(ticket: u64) -> usize
    ensures behind { 8 < result }
    ensures within { result < 528 }
{
    SLEEPING + 8 * (ticket % 64) as usize
}
