// The times that a tile may have.
ghost use Rattle.std.specs.Prelude.{◌≡◌, IfOk, None, Some, option_copied, option_map};

use crate::dates::Dates;
use base_values::OutOfMemory;
use std::alloc::Global;
use std::marker::Model;

/// The times of a tile of a cache, in memory of their own, or none: a tile without times is no larger for them.
#[derive(Debug, Drop)]
pub struct TileDates {
    kept: Option<Box<Dates>>,
}

impl Model for TileDates {
    ghost use Rattle.std.specs.Prelude.{Option, option_map};
    ghost use Rattle.mb_lists.specs.Common.{coded_option};
    ghost use Rattle.mb_lists.specs.CellCode.{dates_code};
    ghost use Rattle.mb_lists.specs.declared.dates.Dates.{Dates};

    ghost Value = { Option Dates };

    ghost coded = { coded_option dates_code };

    ghost view = { λ d. option_map (λ b. b.value) d.kept };
}

impl TileDates {
    /// No times.
    pub fn none() -> TileDates
        ensures { result ≡ None }
    {
        TileDates { kept: None }
    }

    /// These times.
    pub fn new(alloc: Global, dates: Dates) -> Result<TileDates, OutOfMemory>
        ensures { IfOk result (λ kept. kept ≡ Some dates) }
    {
        let kept = Box::new(alloc, dates)?;
        Ok(TileDates { kept: Some(kept) })
    }

    /// The times, if there are any.
    pub fn get(&self) -> Option<&Dates>
        ensures { option_copied result ≡ self.now }
    {
        match &self.kept {
            Some(kept) => Some(&**kept),
            None => None,
        }
    }

    /// Puts other times in the place of those that there are; none stay none. It takes no memory.
    pub fn put(&mut self, dates: Dates)
        ensures { self.new ≡ option_map (λ d. dates) self.old }
    {
        if let Some(kept) = &mut self.kept {
            **kept = dates;
        }
    }
}
