//! The user codes of rounds in which the user may still decide (RFC 9635, section 3.3.3).
ghost use Rattle.std.specs.Prelude.{◌≡◌, ◌<◌, ◌≤◌, ◌+◌, ◌^◌, ◌/◌, ◌⊎◌, ℕ, [], true, Some, IfSome, get_or, option_map, slice_get};
ghost use Rattle.gnap_tables.proofs.Lists.{HasItem};
ghost use Rattle.grant_states.specs.Listed.{under};
ghost use Rattle.grant_states.specs.declared.numbers_by_key.Listed.{Listed};
ghost use Rattle.grant_states.specs.CodeNumbers.{number_of};
ghost use Rattle.grant_states.specs.OpenCodes.{HasCode, IsCodeIn, IsCodeListed, open_code as code_while_open};

use crate::code_list::CodeList;
use crate::code_numbers::code_number;
use bytes_and_lists::memory::Mem;
use gnap_tables::rows::KeptRound;
use std::alloc::Global;

// There are so many lists of codes: one for each letter with which a code may begin.
const LIST_COUNT: usize = 20;

// So many codes begin with the same letter.
const LIST_WIDTH: u64 = 1_280_000_000;

/// The codes of rounds in which the user may still decide, each with its grant. A code stands in the list of its first letter, so that few others move up
/// where one is put in or taken out.
#[derive(Drop)]
pub(crate) struct OpenCodes {
    alloc: Global,
    /// The lists, in the order of the letters.
    pub(crate) lists: Vec<CodeList>,
    /// All codes of such rounds are listed. It isn't so once two of the rounds had one code, or one had a code that no number has.
    pub(crate) complete: bool,
}

/// The code of a round in which the user may still decide after this moment.
pub(crate) fn open_code(round: &Option<KeptRound>, after: u64) -> Option<[u8; 8]>
    ensures { result ≡ code_while_open after round.now }
{
    match round {
        Some(kept) => {
            let round = kept.round();
            if round.decision.is_none() && after < round.until {
                round.code
            } else {
                None
            }
        }
        None => None,
    }
}

// Takes memory for so many more in each of the lists from this one on.
fn reserve_lists(lists: &mut Vec<CodeList>, more: usize) -> Result<(), Mem>
    ensures { lists.new.items ≡ lists.old.items }
{
    for i in 0..lists.len() {
        lists[i].reserve(more)?;
    }
    Ok(())
}

// Puts an empty list behind the others, until there are as many as there are letters.
fn make_lists(alloc: Global, lists: &mut Vec<CodeList>) -> Result<(), Mem>
    ensures { (i : ℕ) → get_or lists.new.items i [] ≡ get_or lists.old.items i [] }
{
    for _ in lists.len()..LIST_COUNT {
        if lists.push(CodeList::new(alloc)).is_err() {
            return Err(Mem);
        }
    }
    Ok(())
}

// The list at a place.
fn list_at(lists: &[CodeList], at: usize) -> Option<&CodeList>
    ensures { option_map (λ list. list.now) result ≡ slice_get lists.now at }
{
    lists.get(at)
}

impl OpenCodes {
    /// None. Takes no memory.
    pub(crate) fn new(alloc: Global) -> OpenCodes
        ensures { (code number : ℕ) → HasCode result code number → ⊥ }
    {
        OpenCodes {
            alloc,
            lists: Vec::new(alloc),
            complete: true,
        }
    }

    /// Takes memory for so many codes more. An `Err` takes none out.
    pub(crate) fn reserve(&mut self, more: usize) -> Result<(), Mem>
        ensures lists { (i : ℕ) → get_or self.new.lists.items i [] ≡ get_or self.old.lists.items i [] }
        ensures complete { self.new.complete ≡ self.old.complete }
    {
        make_lists(self.alloc, &mut self.lists)?;
        reserve_lists(&mut self.lists, more)
    }

    // Takes a grant out from under the number of a code. Takes no memory.
    fn take_number(&mut self, number: u64, listed: u64)
        ensures kept { (n other : ℕ) → HasCode self.old n other → (other ≡ number → ⊥) → HasCode self.new n other }
        ensures only { (n other : ℕ) → HasCode self.new n other → HasCode self.old n other }
        ensures gone { HasCode self.new listed number → ⊥ }
        ensures complete { self.new.complete ≡ self.old.complete }
    {
        let at = (listed / LIST_WIDTH) as usize;
        if at < self.lists.len() {
            self.lists[at].take(listed, number);
        }
    }

    // Takes a grant out from under a code, where there is one. Takes no memory.
    fn take(&mut self, number: u64, code: &Option<[u8; 8]>)
        ensures kept { (n other : ℕ) → HasCode self.old n other → (other ≡ number → ⊥) → HasCode self.new n other }
        ensures only { (n other : ℕ) → HasCode self.new n other → HasCode self.old n other }
        ensures gone { (n : ℕ) → HasCode self.new n number → IsCodeIn n code.now → ⊥ }
        ensures complete { self.new.complete ≡ self.old.complete }
    {
        if let Some(code) = code
            && let Some(listed) = code_number(code)
        {
            self.take_number(number, listed);
        }
    }

    // Lists a grant under the number of a code, unless another grant is listed there. Takes no memory.
    fn put_number(&mut self, number: u64, listed: u64) -> bool
        ensures kept { (n other : ℕ) → HasCode self.old n other → HasCode self.new n other }
        ensures only { (n other : ℕ) → HasCode self.new n other → HasCode self.old n other ⊎ ((other ≡ number) × (n ≡ listed)) }
        ensures listed { result ≡ true → HasCode self.new listed number }
        ensures complete { self.new.complete ≡ self.old.complete }
    {
        let at = (listed / LIST_WIDTH) as usize;
        if at < self.lists.len() {
            self.lists[at].put(listed, number)
        } else {
            false
        }
    }

    // Lists a grant under a code, where there is one. It can't where the code has no number or another grant. Takes no memory.
    fn put(&mut self, number: u64, code: &Option<[u8; 8]>)
        ensures kept { (n other : ℕ) → HasCode self.old n other → HasCode self.new n other }
        ensures only { (n other : ℕ) → HasCode self.new n other → HasCode self.old n other ⊎ ((other ≡ number) × IsCodeIn n code.now) }
        ensures listed { self.new.complete ≡ true → (self.old.complete ≡ true) × IfSome code.now (IsCodeListed self.new number) }
    {
        if let Some(code) = code {
            let listed = match code_number(code) {
                Some(listed) => self.put_number(number, listed),
                None => false,
            };
            self.complete = self.complete && listed;
        }
    }

    /// A grant whose open code was the first of both has the second now. Takes no memory.
    pub(crate) fn change(&mut self, number: u64, before: &Option<[u8; 8]>, after: &Option<[u8; 8]>)
        requires own { (n : ℕ) → HasCode self.old n number → IsCodeIn n before.now }
        requires was { self.old.complete ≡ true → IfSome before.now (IsCodeListed self.old number) }
        ensures kept { (n other : ℕ) → HasCode self.old n other → (other ≡ number → ⊥) → HasCode self.new n other }
        ensures only { (n other : ℕ) → HasCode self.new n other → (other ≡ number → ⊥) → HasCode self.old n other }
        ensures own { (n : ℕ) → HasCode self.new n number → IsCodeIn n after.now }
        ensures listed { self.new.complete ≡ true → (self.old.complete ≡ true) × IfSome after.now (IsCodeListed self.new number) }
    {
        if before == after {
            return;
        }
        self.take(number, before);
        self.put(number, after);
    }

    // The grant that is listed under the number of a code.
    fn number_under(&self, listed: u64) -> Option<u64>
        ensures { (number : ℕ) → HasCode self.now listed number → result ≡ Some number }
    {
        match list_at(self.lists.as_slice(), (listed / LIST_WIDTH) as usize) {
            Some(list) => list.number(listed),
            None => None,
        }
    }

    /// The grant that is listed under a code.
    pub(crate) fn number(&self, code: &[u8; 8]) -> Option<u64>
        ensures { (n number : ℕ) → number_of code.now ≡ Some n → HasCode self.now n number → result ≡ Some number }
    {
        match code_number(code) {
            Some(listed) => self.number_under(listed),
            None => None,
        }
    }

    /// All codes from this one up to the result are listed, each with a grant.
    pub(crate) fn run_end(&self, code: u64) -> u64
        requires { code < 20 ^ 8 }
        ensures low { code ≤ result }
        ensures high { result ≤ 20 ^ 8 }
        ensures run { (k : ℕ) → code ≤ k → k < result → (number : ℕ) × HasCode self.now k number }
    {
        let letter = code / LIST_WIDTH;
        match list_at(self.lists.as_slice(), letter as usize) {
            Some(list) => list.run_end(code).min((letter + 1) * LIST_WIDTH),
            None => code,
        }
    }
}
