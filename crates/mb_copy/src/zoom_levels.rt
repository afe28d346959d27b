// A list of zooms.
ghost use Rattle.std.specs.Prelude.{◌≡◌};

use std::marker::Model;

/// Zooms, in any order.
#[derive(Debug, Drop)]
pub struct ZoomLevels {
    levels: Vec<u8>,
}

impl Model for ZoomLevels {
    ghost use Rattle.std.specs.Prelude.{ℕ, List};

    ghost Value = { List ℕ };

    ghost view = { λ l. l.levels.items };
}

impl ZoomLevels {
    /// The list of these zooms.
    pub fn new(levels: Vec<u8>) -> ZoomLevels
        ensures { result ≡ levels.items }
    {
        ZoomLevels { levels }
    }

    /// The zooms in order.
    pub fn as_slice(&self) -> &[u8]
        ensures { result.now ≡ self.now }
    {
        self.levels.as_slice()
    }
}
