// The layouts of a tile set.
ghost use Rattle.std.specs.Prelude.{◌≡◌};
ghost use Rattle.mb_tables.specs.Table.{table_text};
ghost use Rattle.mb_tables.specs.Kind.{cli_layout_words, contents_of, has_hash_view, has_number_ids, id_text, is_normalized, layout_words, places_of, schema_of, tile_table};

use crate::TableName;
use std::fmt;

/// The metadata name of the digest over all tiles of a set.
pub const AGG_TILES_HASH: &str = "agg_tiles_hash";

/// The metadata name, in a difference, of that digest after the difference is applied.
pub const AGG_TILES_HASH_AFTER_APPLY: &str = "agg_tiles_hash_after_apply";

/// The metadata name, in a difference, of that digest of the set that it applies to.
pub const AGG_TILES_HASH_BEFORE_APPLY: &str = "agg_tiles_hash_before_apply";

/// The metadata name of the algorithm of a set's digests.
pub const HASH_ALGORITHM: &str = "hash_algorithm";

/// How a tile set keeps its tiles in tables.
#[derive(Clone, Copy, Debug, PartialEq, Eq, Hash)]
pub enum MbtType {
    /// One table of tiles.
    Flat,
    /// One table of tiles, each with the digest of its contents.
    FlatWithHash,
    /// A table of places and a table of contents.
    Normalized {
        /// Whether a view gives the tiles with their digests.
        hash_view: bool,
        /// Which tables these are.
        schema: NormalizedSchema,
    },
    /// One table of tiles with the times of a cache.
    Cache,
}

impl MbtType {
    /// Whether the set has a table of places and a table of contents.
    pub fn is_normalized(self) -> bool
        ensures { result ≡ is_normalized self }
    {
        matches!(self, MbtType::Normalized { .. })
    }

    /// Whether it has these and a view of the tiles with their digests.
    pub fn is_normalized_with_view(self) -> bool
        ensures { result ≡ has_hash_view self }
    {
        matches!(
            self,
            MbtType::Normalized {
                hash_view: true,
                ..
            }
        )
    }

    /// Which tables these are, None for the other layouts.
    pub fn normalized_schema(self) -> Option<NormalizedSchema>
        ensures { result ≡ schema_of self }
    {
        match self {
            MbtType::Normalized { schema, .. } => Some(schema),
            _ => None,
        }
    }

    /// The table that has the places of its tiles.
    pub fn tile_table(self) -> TableName
        ensures { result ≡ tile_table self }
    {
        match self {
            MbtType::Flat => TableName::Tiles,
            MbtType::FlatWithHash => TableName::TilesWithHash,
            MbtType::Normalized { schema, .. } => schema.places(),
            MbtType::Cache => TableName::TileCache,
        }
    }

    // Its words in lower case, without its fields.
    fn words(self) -> &'static str
        ensures { result.now ≡ layout_words self }
    {
        match self {
            MbtType::Flat => "flat",
            MbtType::FlatWithHash => "flat-with-hash",
            MbtType::Normalized { .. } => "normalized",
            MbtType::Cache => "cache",
        }
    }
}

impl fmt::Display for MbtType {
    ghost use Rattle.std.specs.Prelude.{Some};
    ghost use Rattle.mb_tables.specs.Kind.{layout_words};

    ghost output = { λ t. Some (layout_words t) };

    fn fmt<W: fmt::Write>(&self, f: &mut fmt::Formatter<W>) -> fmt::Result {
        let words = self.words();
        write!(f, "{words}")
    }
}

/// The tables of a normalised tile set.
#[derive(Clone, Copy, Debug, PartialEq, Eq, Hash)]
pub enum NormalizedSchema {
    /// `map` and `images`: contents by the text of their digest.
    Hash,
    /// `tiles_shallow` and `tiles_data`: contents by a number.
    DedupId,
}

impl NormalizedSchema {
    /// The table of places.
    pub fn places(self) -> TableName
        ensures { result ≡ places_of self }
    {
        match self {
            NormalizedSchema::Hash => TableName::Map,
            NormalizedSchema::DedupId => TableName::TilesShallow,
        }
    }

    /// The name of the table of places.
    pub fn map_table(self) -> &'static str
        ensures { result.now ≡ table_text (places_of self) }
    {
        match self {
            NormalizedSchema::Hash => "map",
            NormalizedSchema::DedupId => "tiles_shallow",
        }
    }

    /// The table of contents.
    pub fn contents(self) -> TableName
        ensures { result ≡ contents_of self }
    {
        match self {
            NormalizedSchema::Hash => TableName::Images,
            NormalizedSchema::DedupId => TableName::TilesData,
        }
    }

    /// The name of the table of contents.
    pub fn content_table(self) -> &'static str
        ensures { result.now ≡ table_text (contents_of self) }
    {
        match self {
            NormalizedSchema::Hash => "images",
            NormalizedSchema::DedupId => "tiles_data",
        }
    }

    /// The name of the column that links the two.
    pub fn tile_id_column(self) -> &'static str
        ensures { result.now ≡ id_text self }
    {
        match self {
            NormalizedSchema::Hash => "tile_id",
            NormalizedSchema::DedupId => "tile_data_id",
        }
    }

    /// Whether that column holds numbers, not texts.
    pub fn uses_integer_tile_id(self) -> bool
        ensures { result ≡ has_number_ids self }
    {
        matches!(self, NormalizedSchema::DedupId)
    }
}

/// The layouts that a command line names.
#[derive(Clone, Copy, Debug, PartialEq, Eq, Hash)]
pub enum MbtTypeCli {
    /// One table of tiles.
    Flat,
    /// One table of tiles, each with the digest of its contents.
    FlatWithHash,
    /// A table of places and a table of contents.
    Normalized,
    /// One table of tiles with the times of a cache.
    Cache,
}

impl MbtTypeCli {
    // Its words in lower case.
    fn words(self) -> &'static str
        ensures { result.now ≡ cli_layout_words self }
    {
        match self {
            MbtTypeCli::Flat => "flat",
            MbtTypeCli::FlatWithHash => "flat-with-hash",
            MbtTypeCli::Normalized => "normalized",
            MbtTypeCli::Cache => "cache",
        }
    }
}

impl fmt::Display for MbtTypeCli {
    ghost use Rattle.std.specs.Prelude.{Some};
    ghost use Rattle.mb_tables.specs.Kind.{cli_layout_words};

    ghost output = { λ t. Some (cli_layout_words t) };

    fn fmt<W: fmt::Write>(&self, f: &mut fmt::Formatter<W>) -> fmt::Result {
        let words = self.words();
        write!(f, "{words}")
    }
}
