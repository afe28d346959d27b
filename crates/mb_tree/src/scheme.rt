// How rows are counted in the paths of tiles.
ghost use Rattle.std.specs.Prelude.{◌≡◌, ◌<◌, ◌≤◌, ◌^◌};
ghost use Rattle.mb_tree.specs.Scheme.{turned};

use tile_ids::invert_y_value;

/// How the paths of a tree count the rows of a zoom.
#[derive(Clone, Copy, Debug, PartialEq, Eq)]
pub enum TileScheme {
    /// From the top, as addresses of tiles on the web do.
    Xyz,
    /// From the bottom, as the Tile Map Service does.
    Tms,
}

impl Default for TileScheme {
    ghost use Rattle.mb_tree.specs.declared.scheme.TileScheme.TheVariants.{Xyz};

    ghost is_default = { λ scheme. scheme ≡ Xyz };

    fn default() -> TileScheme {
        TileScheme::Xyz
    }
}

impl TileScheme {
    /// The row counted from the top of the one that a path has, and the other way round.
    pub(crate) fn turned(self, zoom: u8, row: u32) -> u32
        requires zoom { zoom ≤ 31 }
        requires row { row < 2 ^ zoom }
        ensures { result ≡ turned self zoom row }
    {
        match self {
            TileScheme::Xyz => row,
            TileScheme::Tms => invert_y_value(zoom, row),
        }
    }
}
