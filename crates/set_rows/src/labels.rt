// Layouts, schemas, kinds of patches and tables, and their texts.
use mb_tables::{
    AGG_TILES_HASH, AGG_TILES_HASH_AFTER_APPLY, AGG_TILES_HASH_BEFORE_APPLY, HASH_ALGORITHM,
    MbtError, MbtTypeCli, NormalizedSchema, PatchType, PatchTypeCli, TableName,
    get_bsdiff_tbl_name,
};
use rows_shared::{Words, say, say_text};
use set_words::{layout, table};

fn say_schema(out: &mut String, schema: NormalizedSchema) -> Option<()> {
    say(out, &schema)?;
    say(out, &schema.map_table())?;
    say(out, &schema.content_table())?;
    say(out, &schema.tile_id_column())?;
    say(out, &schema.uses_integer_tile_id())
}

fn say_layout(out: &mut String, words: &mut Words) -> Option<()> {
    let layout = layout(words)?;
    say_text(out, &layout)?;
    say(out, &layout.is_normalized())?;
    say(out, &layout.is_normalized_with_view())?;
    match layout.normalized_schema() {
        Some(schema) => say_schema(out, schema),
        None => Some(()),
    }
}

fn command_line(out: &mut String) -> Option<()> {
    say_text(out, &MbtTypeCli::Flat)?;
    say_text(out, &MbtTypeCli::FlatWithHash)?;
    say_text(out, &MbtTypeCli::Normalized)?;
    say_text(out, &MbtTypeCli::Cache)
}

fn say_patch(out: &mut String, patch: PatchTypeCli) -> Option<()> {
    say_text(out, &patch)?;
    say(out, &patch.patch_type())
}

fn patches(out: &mut String) -> Option<()> {
    say_patch(out, PatchTypeCli::default())?;
    say_patch(out, PatchTypeCli::BinDiffGz)?;
    say_patch(out, PatchTypeCli::BinDiffRaw)?;
    say_text(out, &PatchType::BinDiffGz)?;
    say_text(out, &PatchType::BinDiffRaw)?;
    say(out, &get_bsdiff_tbl_name(PatchType::BinDiffGz))?;
    say(out, &get_bsdiff_tbl_name(PatchType::BinDiffRaw))
}

fn names(out: &mut String) -> Option<()> {
    say(out, &AGG_TILES_HASH)?;
    say(out, &AGG_TILES_HASH_AFTER_APPLY)?;
    say(out, &AGG_TILES_HASH_BEFORE_APPLY)?;
    say(out, &HASH_ALGORITHM)
}

fn say_table(out: &mut String, words: &mut Words) -> Option<()> {
    let table = table(words)?;
    say_text(out, &table)?;
    say(out, &table)?;
    say(out, &table.name())?;
    say(out, &table.width())?;
    say(out, &table.key_width())?;
    say(out, &table.number())
}

fn errors(out: &mut String) -> Option<()> {
    say_text(out, &MbtError::InvalidDataFormat)?;
    say_text(out, &MbtError::NoUniquenessConstraint)?;
    say_text(out, &MbtError::DuplicateRow(TableName::TilesData))?;
    say_text(out, &MbtError::StoreFault)?;
    say_text(out, &MbtError::OutOfMemory)
}

pub fn answer(out: &mut String, words: &mut Words) -> Option<()> {
    match words.next()? {
        "layout" => say_layout(out, words),
        "command_line" => command_line(out),
        "patches" => patches(out),
        "names" => names(out),
        "table" => say_table(out, words),
        "errors" => errors(out),
        _ => None,
    }
}
