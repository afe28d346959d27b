// Owned bytes, which contracts see as their list.
ghost use Rattle.std.specs.Prelude.{◌≡◌, IfOk};

use crate::OutOfMemory;
use std::alloc::Global;
use std::marker::Model;

/// Bytes, as the contents of a tile.
#[derive(Debug, Drop)]
pub struct BlobVal {
    bytes: Vec<u8>,
}

impl Model for BlobVal {
    ghost use Rattle.std.specs.Prelude.{ℕ, List};

    ghost Value = { List ℕ };

    ghost view = { λ b. b.bytes.items };
}

impl BlobVal {
    /// The blob that holds these bytes.
    pub fn new(bytes: Vec<u8>) -> BlobVal
        ensures { result ≡ bytes.items }
    {
        BlobVal { bytes }
    }

    /// The bytes themselves.
    pub fn as_bytes(&self) -> &[u8]
        ensures { result.now ≡ self.now }
    {
        self.bytes.as_slice()
    }

    /// A second blob with the same bytes.
    pub fn try_clone(&self, alloc: Global) -> Result<BlobVal, OutOfMemory>
        ensures { IfOk result (λ copy. copy ≡ self.now) }
    {
        Ok(BlobVal {
            bytes: Vec::from_slice(alloc, self.bytes.as_slice())?,
        })
    }
}

impl PartialEq for BlobVal {
    ghost use Rattle.std.specs.Prelude.{nat_eq};
    ghost use Rattle.base_values.specs.Common.{nat_list_eq_equiv, partial_equiv_from_equiv, pointwise};

    ghost eq = { pointwise nat_eq };

    ghost laws = { partial_equiv_from_equiv nat_list_eq_equiv };

    fn eq(&self, other: &Self) -> bool {
        self.as_bytes() == other.as_bytes()
    }
}

impl Eq for BlobVal {
    ghost use Rattle.base_values.specs.Common.{nat_list_eq_equiv};

    ghost laws = { nat_list_eq_equiv };
}
