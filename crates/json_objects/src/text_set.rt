//! Sets of texts.
ghost use Rattle.std.specs.Prelude.{◌≡◌, ◌||◌, ℕ, List, not, false, IfOk, OnOk, OnErr};
ghost use Rattle.std.specs.Str.{bytes_eq};
ghost use Rattle.json_objects.specs.TextSets.{has_text};

use bytes_and_lists::memory::Mem;
use std::alloc::Global;
use std::collections::BTreeSet;

/// Texts, each once. Contracts see which texts it has.
#[derive(Drop)]
pub struct TextSet {
    texts: BTreeSet<String>,
}

impl TextSet {
    /// No texts. Takes no memory.
    pub fn new(alloc: Global) -> TextSet
        ensures { (text : List ℕ) → has_text result text ≡ false }
    {
        TextSet {
            texts: BTreeSet::new(alloc),
        }
    }

    /// Adds the text, and answers whether it is new. An `Err` changes nothing. Takes time that grows with the logarithm of the number of texts.
    pub fn insert(&mut self, alloc: Global, text: &str) -> Result<bool, Mem>
        ensures new { IfOk result (λ new. new ≡ not (has_text self.old text.now)) }
        ensures added { OnOk result ((other : List ℕ) → has_text self.new other ≡ (bytes_eq text.now other || has_text self.old other)) }
        ensures err { OnErr result ((other : List ℕ) → has_text self.new other ≡ has_text self.old other) }
    {
        let text = String::from_str(alloc, text)?;
        Ok(self.texts.insert(text)?)
    }
}
