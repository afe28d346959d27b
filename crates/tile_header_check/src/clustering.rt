// Contents that are clustered.
ghost use Rattle.std.specs.Prelude.{◌≡◌, [], nat_eq, IfOk, OnOk};
ghost use Rattle.std.specs.List.{list_any};
ghost use Rattle.tile_header_check.specs.Clustering.{Lays, RiseTo, clustered_fault, first_unlaid};

use crate::HeaderFault;
use base_values::OutOfMemory;
use std::alloc::Global;

// Contents that lie one behind another: where they end, and where each of them begins.
#[derive(Drop)]
struct Laid {
    end: u64,
    begins: Vec<u64>,
}

impl Laid {
    // No contents yet.
    fn new(alloc: Global) -> Laid
        ensures { (result.end ≡ 0) × (result.begins.items ≡ []) }
    {
        Laid {
            end: 0,
            begins: Vec::new(alloc),
        }
    }

    // Whether some contents begin at a place.
    fn has(&self, place: u64) -> bool
        requires { RiseTo self.now.end self.now.begins.items }
        ensures { result ≡ list_any (nat_eq place) self.now.begins.items }
    {
        self.begins.binary_search(&place).is_ok()
    }

    // Lays those of one more tile entry. Whether they lie behind the others, or begin where some of these do.
    fn lay(&mut self, part: (u64, u32, u32)) -> Result<bool, OutOfMemory>
        requires { RiseTo self.old.end self.old.begins.items }
        ensures lays { IfOk result (λ fits. Lays self.old.end self.old.begins.items part fits
            self.new.end self.new.begins.items) }
        ensures rise { OnOk result (RiseTo self.new.end self.new.begins.items) }
    {
        if part.0 != self.end {
            return Ok(self.has(part.0));
        }
        self.begins.push(self.end)?;
        self.end = self.end.saturating_add(u64::from(part.1));
        Ok(true)
    }
}

// The first tile entry whose contents aren't laid behind those of the entries before it.
fn first_unlaid(
    alloc: Global,
    parts: &[(u64, u32, u32)],
) -> Result<Option<HeaderFault>, OutOfMemory>
    ensures { IfOk result (λ fault. fault ≡ first_unlaid 0 0 [] parts.now) }
{
    let mut laid = Laid::new(alloc);
    let mut rest = parts;
    while let Some((part, others)) = rest.split_first() {
        let due = laid.end;
        if !laid.lay(*part)? {
            let entry = (parts.len() - rest.len()) as u64;
            let found = part.0;
            return Ok(Some(HeaderFault::Clustered { entry, due, found }));
        }
        rest = others;
    }
    Ok(None)
}

/// The same, where a header says that contents are clustered: by the offset, length and run of each tile entry.
pub(crate) fn clustered_fault(
    alloc: Global,
    clustered: bool,
    parts: &[(u64, u32, u32)],
) -> Result<Option<HeaderFault>, OutOfMemory>
    ensures { IfOk result (λ fault. fault ≡ clustered_fault clustered parts.now) }
{
    if !clustered {
        return Ok(None);
    }
    first_unlaid(alloc, parts)
}
