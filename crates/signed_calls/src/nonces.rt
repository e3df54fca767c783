//! What keeps the nonces that are remembered.
ghost use Rattle.std.specs.Prelude.{◌≡◌, ℕ, List, is_some, IfOk, OnErr};
ghost use Rattle.std.specs.declared.option.Option.{Option};
ghost use Rattle.std.specs.declared.option.Option.TheVariants.{None, Some};
ghost use Rattle.signed_calls.specs.Remembering.{is_live_at, IsSwept, HasOneMore, HasOneLess};

use bytes_and_lists::bytes::Bytes;
use bytes_and_lists::memory::Mem;

/// The nonces that are remembered.
pub trait Nonces {
    /// Up to which moment a nonce of a key is remembered.
    ghost until: { Self → List ℕ → List ℕ → Option ℕ };

    /// How many are remembered at a moment.
    ghost many: { Self → ℕ → ℕ };

    /// Takes away what isn't remembered any more.
    fn sweep(&mut self, latest: u64)
        ensures { IsSwept (until self.old) (many self.old) latest (until self.new) (many self.new) };

    /// Whether the key's nonce is remembered at the moment.
    fn knows(&self, key: &Bytes, nonce: &Bytes, moment: u64) -> bool
        ensures { result ≡ is_live_at moment (until self.now key.now nonce.now) };

    /// How many are remembered at a moment at which all that are kept are. Takes no memory.
    fn count(&self, moment: u64) -> usize
        requires { (k n : List ℕ) → is_some (until self.now k n) ≡ is_live_at moment (until self.now k n) }
        ensures { result ≡ many self.now moment };

    /// Remembers a nonce. An `Err` changes nothing.
    fn remember(&mut self, key: &Bytes, nonce: &Bytes, end: u64) -> Result<(), Mem>
        requires { until self.old key.now nonce.now ≡ None }
        ensures ok { IfOk result (λ _. HasOneMore (until self.old) (many self.old) key.now nonce.now end (until self.new) (many self.new)) }
        ensures err { OnErr result (((k n : List ℕ) → until self.new k n ≡ until self.old k n) × ((m : ℕ) → many self.new m ≡ many self.old m)) };

    /// Forgets a nonce, and takes no memory.
    fn forget(&mut self, key: &Bytes, nonce: &Bytes, end: u64)
        requires { until self.old key.now nonce.now ≡ Some end }
        ensures { HasOneLess (until self.old) (many self.old) key.now nonce.now end (until self.new) (many self.new) };
}
