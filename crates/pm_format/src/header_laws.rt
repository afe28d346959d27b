// Laws of headers: facts about their definitions, as contracts of functions that do nothing.
ghost use Rattle.std.specs.Prelude.{◌≡◌, ℕ, List, ◌++◌, length, Ok};
ghost use Rattle.pm_format.specs.Header.{HeaderFits, head, header_bytes};
ghost use Rattle.pm_format.specs.declared.header.Header.{Header};

use crate::HEADER_SIZE;

/// What is written as a header is read again, whatever follows it.
pub fn header_read_again()
    ensures { (h : Header) (rest : List ℕ) → HeaderFits h → head (header_bytes h ++ rest) ≡ Ok h }
{}

/// A header has `HEADER_SIZE` bytes.
pub fn header_has_127_bytes()
    ensures { (h : Header) → length (header_bytes h) ≡ HEADER_SIZE }
{}
