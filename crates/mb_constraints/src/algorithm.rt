// The algorithm of a set's digests.
ghost use Rattle.std.specs.Prelude.{◌≡◌, IfOk};
ghost use Rattle.mb_constraints.specs.Common.{option_copied, Tests};
ghost use Rattle.mb_constraints.specs.Algorithm.{algorithm_by, algorithm_named, unknown_name};

use base_values::TextVal;
use mb_store::{MbtError, MbtResult};
use std::alloc::Global;
use tile_hash::HashAlgorithm;

// The algorithm of a name, ASCII case aside.
fn algorithm_named(name: &str) -> Option<HashAlgorithm>
    ensures { result ≡ algorithm_named name.now }
{
    HashAlgorithm::parse(name)
}

/// The algorithm that a stored name means, MD5 where none is stored.
pub fn algorithm_by(alloc: Global, name: Option<&TextVal>) -> MbtResult<HashAlgorithm>
    ensures tests { Tests (unknown_name (option_copied name.entry)) result }
    ensures algorithm { IfOk result (λ a. a ≡ algorithm_by (option_copied name.entry)) }
{
    let Some(name) = name else {
        return Ok(HashAlgorithm::Md5);
    };
    match algorithm_named(name.as_str()) {
        Some(algorithm) => Ok(algorithm),
        None => Err(MbtError::UnsupportedHashAlgorithm {
            algorithm: name.try_clone(alloc)?,
        }),
    }
}
