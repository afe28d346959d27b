// The type of tiles that a text under the name `format` says.
ghost use Rattle.std.specs.Prelude.{◌≡◌, option_copied, Some};
ghost use Rattle.set_options.specs.Extents.{trimmed};
ghost use Rattle.set_options.specs.Format.{is_image, is_jpeg, is_mvt, is_name, type_named, type_of};

use base_values::TextVal;
use pm_format::TileType;

// Whether a word is a name, ASCII case aside.
fn is_name(word: &str, name: &str) -> bool
    ensures { result ≡ is_name word.now name.now }
{
    word.eq_ignore_ascii_case(name)
}

// Whether a word is a name, or the media type with it behind.
fn is_image(word: &str, name: &str, media_type: &str) -> bool
    ensures { result ≡ is_image word.now name.now media_type.now }
{
    is_name(word, name) || is_name(word, media_type)
}

fn is_mvt(word: &str) -> bool
    ensures { result ≡ is_mvt word.now }
{
    is_name(word, "pbf")
        || is_name(word, "mvt")
        || is_name(word, "application/x-protobuf")
        || is_name(word, "application/vnd.mapbox-vector-tile")
        || is_name(word, "x-protobuf")
        || is_name(word, "protobuf")
}

fn is_jpeg(word: &str) -> bool
    ensures { result ≡ is_jpeg word.now }
{
    is_image(word, "jpg", "image/jpg") || is_image(word, "jpeg", "image/jpeg")
}

// A text without blanks in front and behind.
fn trimmed(text: &str) -> &str
    ensures { result.now ≡ trimmed text.now }
{
    text.trim_ascii()
}

/// The type that a text says, blanks around it aside.
pub(crate) fn type_said(text: &str) -> TileType
    ensures { result ≡ type_of (Some text.now) }
{
    type_named(trimmed(text))
}

/// The same of a text that there may be; `Unknown` where there is none.
pub(crate) fn type_of(text: Option<&TextVal>) -> TileType
    ensures { result ≡ type_of (option_copied text.entry) }
{
    match text {
        Some(text) => type_said(text.as_str()),
        None => TileType::Unknown,
    }
}

// The type that a word names, ASCII case aside, as the end of a file's name or as a media type.
#[tactic(auto, unfolding(crate::specs::Format::type_named))]
fn type_named(word: &str) -> TileType
    ensures { result ≡ type_named word.now }
{
    if is_mvt(word) {
        return TileType::Mvt;
    }
    if is_image(word, "png", "image/png") {
        return TileType::Png;
    }
    if is_jpeg(word) {
        return TileType::Jpeg;
    }
    if is_image(word, "webp", "image/webp") {
        return TileType::Webp;
    }
    if is_image(word, "avif", "image/avif") {
        return TileType::Avif;
    }
    if is_image(word, "mlt", "application/vnd.maplibre-vector-tile") {
        return TileType::Mlt;
    }
    TileType::Unknown
}
