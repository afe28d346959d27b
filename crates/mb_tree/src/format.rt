// The formats of tiles in files.
ghost use Rattle.std.specs.Prelude.{◌≡◌};
ghost use Rattle.mb_tree.specs.Common.{str_eq_ignore_ascii_case};
ghost use Rattle.mb_tree.specs.Format.{format_of, format_word, same_format};

/// A format of tiles in files.
#[derive(Clone, Copy, Debug, PartialEq, Eq)]
pub(crate) enum FileFormat {
    Png,
    Jpg,
    Webp,
    Avif,
    Pbf,
    Mlt,
}

// Whether a word is a name, ASCII case aside.
fn is_name(word: &str, name: &str) -> bool
    ensures { result ≡ str_eq_ignore_ascii_case word.now name.now }
{
    word.eq_ignore_ascii_case(name)
}

impl FileFormat {
    /// The format that a word names, as the extension of a file and in metadata: ASCII case aside one of `png`, `jpg`
    /// and `jpeg`, `webp`, `avif`, `pbf` and `mvt`, and `mlt`.
    #[tactic(auto, unfolding(crate::specs::Format::format_of))]
    pub(crate) fn of_word(word: &str) -> Option<FileFormat>
        ensures { result ≡ format_of word.now }
    {
        if is_name(word, "png") {
            return Some(FileFormat::Png);
        }
        if is_name(word, "jpg") || is_name(word, "jpeg") {
            return Some(FileFormat::Jpg);
        }
        if is_name(word, "webp") {
            return Some(FileFormat::Webp);
        }
        if is_name(word, "avif") {
            return Some(FileFormat::Avif);
        }
        if is_name(word, "pbf") || is_name(word, "mvt") {
            return Some(FileFormat::Pbf);
        }
        if is_name(word, "mlt") {
            return Some(FileFormat::Mlt);
        }
        None
    }

    /// The word that is written: `png`, `jpg`, `webp`, `avif`, `pbf` or `mlt`.
    pub(crate) fn word(self) -> &'static str
        ensures { result.now ≡ format_word self }
    {
        match self {
            FileFormat::Png => "png",
            FileFormat::Jpg => "jpg",
            FileFormat::Webp => "webp",
            FileFormat::Avif => "avif",
            FileFormat::Pbf => "pbf",
            FileFormat::Mlt => "mlt",
        }
    }

    /// Whether two formats are one, or both are none.
    pub(crate) fn are_same(first: Option<FileFormat>, other: Option<FileFormat>) -> bool
        ensures { result ≡ same_format first other }
    {
        match first {
            Some(first) => match other {
                Some(other) => first.word() == other.word(),
                None => false,
            },
            None => other.is_none(),
        }
    }
}
