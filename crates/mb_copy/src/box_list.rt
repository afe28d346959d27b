// A list of boxes.
ghost use Rattle.std.specs.Prelude.{◌≡◌};

use crate::TileBox;
use std::marker::Model;

/// Boxes of tiles.
#[derive(Debug, Drop)]
pub struct BoxList {
    boxes: Vec<TileBox>,
}

impl Model for BoxList {
    ghost use Rattle.std.specs.Prelude.{List};
    ghost use Rattle.mb_copy.specs.declared.tile_box.TileBox.{TileBox};

    ghost Value = { List TileBox };

    ghost view = { λ l. l.boxes.items };
}

impl BoxList {
    /// The list of these boxes.
    pub fn new(boxes: Vec<TileBox>) -> BoxList
        ensures { result ≡ boxes.items }
    {
        BoxList { boxes }
    }

    /// The boxes in order.
    pub fn as_slice(&self) -> &[TileBox]
        ensures { result.now ≡ self.now }
    {
        self.boxes.as_slice()
    }
}
