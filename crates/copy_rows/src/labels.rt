// What is copied, as it is shown, and what it takes.
use mb_copy::CopyType;
use rows_shared::{Words, say, say_text};

fn say_type(out: &mut String, copy: CopyType) -> Option<()> {
    say_text(out, &copy)?;
    say(out, &copy)?;
    say(out, &copy.copy_tiles())?;
    say(out, &copy.copy_metadata())
}

/// What a word stands for.
pub fn answer(out: &mut String, words: &mut Words) -> Option<()> {
    match words.next()? {
        "all" => say_type(out, CopyType::All),
        "metadata" => say_type(out, CopyType::Metadata),
        "tiles" => say_type(out, CopyType::Tiles),
        "default" => say_type(out, CopyType::default()),
        _ => None,
    }
}
