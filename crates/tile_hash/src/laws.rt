//! Laws of the digests, over the definitions that the calls are proved by. None of these functions does anything.
ghost use Rattle.std.specs.Prelude.{◌≡◌, ℕ, List, map};
ghost use Rattle.tile_hash.specs.Common.{to_ascii_uppercase};
ghost use Rattle.tile_hash.specs.Digest.{digest};
ghost use Rattle.tile_hash.specs.declared.algorithm.HashAlgorithm.{HashAlgorithm};

/// No digest's text has a lower-case letter: upper-casing leaves it as it is.
pub fn digests_have_no_lower_case()
    ensures { (a : HashAlgorithm) (bytes : List ℕ)
        → map to_ascii_uppercase (digest a bytes) ≡ digest a bytes }
{}
