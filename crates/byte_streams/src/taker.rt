// What takes the bytes of an input as they come.
ghost use Rattle.std.specs.Prelude.{◌++◌, ℕ, List, OnOk};

use base_values::OutOfMemory;

/// What takes the bytes of an input as they come, piece by piece.
pub trait InputTaker {
    /// These bytes were taken.
    ghost took: { Self → List ℕ → Type 0 };

    /// Takes a piece, behind those that were taken before. Refused, there was no memory for it.
    fn take(&mut self, piece: &[u8]) -> Result<(), OutOfMemory>
        ensures { (bytes : List ℕ) → took self.old bytes
            → OnOk result (took self.new (bytes ++ piece.now)) };
}

impl InputTaker for Vec<u8> {
    ghost use Rattle.std.specs.Prelude.{◌≡◌};

    ghost took = { λ v bytes. v.items ≡ bytes };

    fn take(&mut self, piece: &[u8]) -> Result<(), OutOfMemory> {
        self.extend_from_slice(piece)?;
        Ok(())
    }
}
