//! What has a key.
ghost use Rattle.std.specs.Prelude.{◌≡◌, ℕ};

/// An item of a list that stands in the order of its keys.
pub trait Keyed {
    /// Its key.
    ghost key_of: { Self → ℕ };

    /// Its key.
    fn key(&self) -> u64
        ensures { result ≡ key_of self.now };
}
