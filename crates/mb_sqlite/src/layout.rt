// The tables of a layout, and the text that makes them.
ghost use Rattle.std.specs.Prelude.{◌≡◌};
ghost use Rattle.mb_sqlite.specs.Common.{bytes_eq, is_table, list_any, option_copied, set_tables};
ghost use Rattle.mb_sqlite.specs.Creation.{are_named, making_text};

use crate::statements;
use mb_tables::{MbtType, NormalizedSchema, TableDesc, TableName};

// Whether a set of the layout has the table, not only a view of this name.
pub(crate) fn has_table(layout: MbtType, table: TableName) -> bool
    ensures { result ≡ is_table (set_tables layout) table }
{
    match table {
        TableName::Metadata => true,
        TableName::Tiles => matches!(layout, MbtType::Flat),
        TableName::TilesWithHash => matches!(layout, MbtType::FlatWithHash),
        TableName::Map | TableName::Images => matches!(
            layout,
            MbtType::Normalized {
                schema: NormalizedSchema::Hash,
                ..
            }
        ),
        TableName::TilesShallow | TableName::TilesData => matches!(
            layout,
            MbtType::Normalized {
                schema: NormalizedSchema::DedupId,
                ..
            }
        ),
        TableName::TileCache => matches!(layout, MbtType::Cache),
    }
}

// All tables, each after those that a view of its name reads.
pub(crate) const TABLES: [TableName; 8] = [
    TableName::Metadata,
    TableName::Map,
    TableName::Images,
    TableName::TilesShallow,
    TableName::TilesData,
    TableName::TileCache,
    TableName::TilesWithHash,
    TableName::Tiles,
];

// Makes the table or view of this name that a set of the layout has.
#[tactic(auto, unfolding(crate::specs::Creation::making_text, crate::specs::Creation::view_text))]
pub(crate) fn making_of(layout: MbtType, table: TableName) -> Option<&'static str>
    ensures { option_copied result ≡ making_text layout table }
{
    if has_table(layout, table) {
        return Some(statements::creation_of(table));
    }
    match table {
        TableName::Tiles => statements::tiles_view(layout),
        TableName::TilesWithHash => statements::hash_view(layout),
        _ => None,
    }
}

// Whether one of these descriptions has the name.
fn has_name(tables: &[TableDesc], name: &str) -> bool
    ensures { result ≡ list_any (λ table. bytes_eq name.now table.name) tables.now }
{
    tables.iter().any(|table| name == table.name.as_str())
}

// Whether each of these descriptions has the name of one of those.
pub(crate) fn are_named(tables: &[TableDesc], others: &[TableDesc]) -> bool
    ensures { result ≡ are_named tables.now others.now }
{
    others
        .iter()
        .all(|other| has_name(tables, other.name.as_str()))
}
