//! How much waits.
ghost use Rattle.std.specs.Prelude.{◌≡◌, ℕ};

/// What holds bytes as long as it waits.
pub trait Weighs: Drop {
    // How many bytes it holds.
    ghost weight: { Self → ℕ };

    /// How many bytes it holds.
    fn bytes(&self) -> usize
        ensures { result ≡ weight self.now };
}
