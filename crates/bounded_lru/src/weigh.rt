// What values weigh.
ghost use Rattle.std.specs.Prelude.{◌≡◌, ℕ};

/// A value that counts towards a limit, as a list counts its elements or bytes.
pub trait Weigh {
    /// What the value weighs.
    ghost weight: { Self → ℕ };

    /// What the value weighs.
    fn weigh(&self) -> u64
        ensures { result ≡ weight self.now };
}
