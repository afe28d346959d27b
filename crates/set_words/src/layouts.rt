// Layouts by their words.
use mb_tables::{MbtType, NormalizedSchema};
use rows_shared::Words;

fn normalized(hash_view: bool, schema: NormalizedSchema) -> Option<MbtType> {
    Some(MbtType::Normalized { hash_view, schema })
}

/// A layout by its word.
pub fn layout(words: &mut Words) -> Option<MbtType> {
    match words.next()? {
        "flat" => Some(MbtType::Flat),
        "flat-with-hash" => Some(MbtType::FlatWithHash),
        "normalized" => normalized(false, NormalizedSchema::Hash),
        "normalized-with-view" => normalized(true, NormalizedSchema::Hash),
        "dedup-id" => normalized(false, NormalizedSchema::DedupId),
        "dedup-id-with-view" => normalized(true, NormalizedSchema::DedupId),
        "cache" => Some(MbtType::Cache),
        _ => None,
    }
}
