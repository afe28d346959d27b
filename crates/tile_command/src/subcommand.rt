// The subcommands, by their words.
ghost use Rattle.std.specs.Prelude.{◌≡◌, MatchOption, Some, None};
ghost use Rattle.tile_command.specs.Subcommand.{has_flag, has_option, looking_of, making_of, meta_of, places, subcommand_of};

use base_values::TextVal;

/// What a command line asks for.
#[derive(Clone, Copy, Debug, PartialEq, Eq)]
pub enum Subcommand {
    /// What an archive or a set says of itself.
    Show,
    /// The bytes of a tile.
    Tile,
    /// Counts and sizes of the tiles of a set.
    Summary,
    /// The tests of a set.
    Validate,
    /// The hash of all tiles of a set.
    Hash,
    /// The text under a name of a set's metadata.
    MetaGet,
    /// A text that is put under a name.
    MetaSet,
    /// The metadata of a set.
    MetaAll,
    /// A copy of a set.
    Copy,
    /// A patch that is put on a set.
    Patch,
    /// A set that is made of a folder.
    Pack,
    /// A folder that is made of a set.
    Unpack,
    /// Requests for tiles of an archive, which are answered line by line.
    Serve,
    /// An archive of the tiles of boxes.
    Extract,
    /// An archive of several, the later ones over the earlier.
    Join,
    /// The tests of what an archive's header says.
    Header,
}

// The subcommands that look at a file.
fn looking_of(word: &str) -> Option<Subcommand>
    ensures { result ≡ looking_of word.now }
{
    match word {
        "show" => Some(Subcommand::Show),
        "tile" => Some(Subcommand::Tile),
        "summary" => Some(Subcommand::Summary),
        "validate" => Some(Subcommand::Validate),
        "hash" => Some(Subcommand::Hash),
        "serve" => Some(Subcommand::Serve),
        "header" => Some(Subcommand::Header),
        _ => None,
    }
}

// Those that make a file, or write into one.
fn making_of(word: &str) -> Option<Subcommand>
    ensures { result ≡ making_of word.now }
{
    match word {
        "copy" => Some(Subcommand::Copy),
        "patch" => Some(Subcommand::Patch),
        "pack" => Some(Subcommand::Pack),
        "unpack" => Some(Subcommand::Unpack),
        "extract" => Some(Subcommand::Extract),
        "join" => Some(Subcommand::Join),
        _ => None,
    }
}

// Those behind the word `meta`.
fn meta_of(word: &str) -> Option<Subcommand>
    ensures { result ≡ meta_of word.now }
{
    match word {
        "get" => Some(Subcommand::MetaGet),
        "set" => Some(Subcommand::MetaSet),
        "all" => Some(Subcommand::MetaAll),
        _ => None,
    }
}

/// The subcommand that words begin with, of one word or of two behind `meta`, and the words that follow it.
pub fn subcommand_of(words: &[TextVal]) -> Option<(Subcommand, &[TextVal])>
    ensures { MatchOption result (subcommand_of words.now ≡ None)
        (λ r. subcommand_of words.now ≡ Some (r.0, r.1.now)) }
{
    let [first, rest @ ..] = words else {
        return None;
    };
    if first.as_str() == "meta" {
        let [second, rest @ ..] = rest else {
            return None;
        };
        let subcommand = meta_of(second.as_str())?;
        return Some((subcommand, rest));
    }
    let subcommand = looking_of(first.as_str()).or(making_of(first.as_str()))?;
    Some((subcommand, rest))
}

impl Subcommand {
    /// Whether a word is one of its options that stand alone.
    pub fn has_flag(self, word: &str) -> bool
        ensures { result ≡ has_flag self word.now }
    {
        match self {
            Subcommand::Show => matches!(word, "--metadata" | "--tilejson" | "--entries"),
            Subcommand::Hash => word == "--update",
            Subcommand::Copy => matches!(word, "--skip-agg-tiles-hash" | "--validate" | "--force"),
            Subcommand::Patch => word == "--force",
            Subcommand::Extract | Subcommand::Join => word == "--overwrite",
            _ => false,
        }
    }

    /// Whether a word is one of its options that a value follows.
    pub fn has_option(self, word: &str) -> bool
        ensures { result ≡ has_option self word.now }
    {
        match self {
            Subcommand::Show => word == "--url",
            Subcommand::Validate => word == "--agg-hash",
            Subcommand::Copy => matches!(
                word,
                "--copy"
                    | "--mbtiles-type"
                    | "--on-duplicate"
                    | "--min-zoom"
                    | "--max-zoom"
                    | "--zoom-levels"
                    | "--hash-algorithm"
                    | "--box"
                    | "--apply-patch"
            ),
            Subcommand::Pack | Subcommand::Unpack => word == "--scheme",
            Subcommand::Extract | Subcommand::Join => word == "--max-tiles",
            _ => false,
        }
    }

    /// How many words it has beside its options, at least and at most.
    pub fn places(self) -> (usize, usize)
        ensures { result ≡ places self }
    {
        match self {
            Subcommand::Show
            | Subcommand::Summary
            | Subcommand::Validate
            | Subcommand::Hash
            | Subcommand::MetaAll
            | Subcommand::Header => (1, 1),
            Subcommand::MetaGet
            | Subcommand::Copy
            | Subcommand::Patch
            | Subcommand::Pack
            | Subcommand::Unpack => (2, 2),
            Subcommand::MetaSet => (2, 3),
            Subcommand::Tile => (4, 4),
            Subcommand::Serve => (1, 5),
            Subcommand::Extract => (3, 4002),
            Subcommand::Join => (2, 1001),
        }
    }
}
