// Laws of the format, each the contract of a function without effect.
ghost use Rattle.std.specs.Prelude.{◌≡◌, ◌<◌, ◌^◌, ◌++◌, All, List, ℕ, Some, length};
ghost use Rattle.pm_format.specs.Directory.{DirFits, Entry, dir_bytes, dir_of};
ghost use Rattle.pm_format.specs.Varint.{IsShort, SpellsU64, u64_at, varint};

/// What is written as a directory is read again, whatever follows it: fewer than 2^64 entries whose ids don't fall and
/// are within u64, with lengths and runs within u32, offsets below the end of u64 and ends within u64.
pub fn directory_read_again()
    ensures { (es : List Entry) (rest : List ℕ) → length es < 2 ^ 64 → DirFits 0 es
        → dir_of (dir_bytes es ++ rest) ≡ Some es }
{}

/// A spelling of a u64 is read as its number, whatever follows it.
pub fn spelling_read()
    ensures { (s rest : List ℕ) (n : ℕ) → SpellsU64 s n → u64_at (s ++ rest) ≡ Some (n, rest) }
{}

/// Where a u64 is read from bytes, a front of them spells it.
pub fn reading_spelled()
    ensures { (bs rest : List ℕ) (n : ℕ) → All (λ b. b < 256) bs → u64_at bs ≡ Some (n, rest)
        → (s : List ℕ) × (bs ≡ s ++ rest) × SpellsU64 s n }
{}

/// The spelling that is written has no padding, and no other spelling of its number is without.
pub fn one_short_spelling()
    ensures written { (n : ℕ) → n < 2 ^ 64 → SpellsU64 (varint n) n × IsShort (varint n) }
    ensures alone { (s : List ℕ) (n : ℕ) → SpellsU64 s n → IsShort s → s ≡ varint n }
{}
