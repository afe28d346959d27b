// The zoom that a text spells.
ghost use Rattle.std.specs.Prelude.{◌≡◌};
ghost use Rattle.mb_metadata.specs.ZoomText.{zoom_at, zoom_of};

use mb_loaded::Loaded;

/// The number of a zoom, 0 to 255, as std reads it from a text: decimal digits, and a plus in front of them or none.
/// None for any other text.
pub fn zoom_of(text: &str) -> Option<u8>
    ensures { result ≡ zoom_of text.now }
{
    text.parse::<u8>().ok()
}

/// The zoom that a loaded set has under a name. None where there is no text, or one that spells none.
pub(crate) fn zoom_at(set: &Loaded, name: &str) -> Option<u8>
    ensures { result ≡ zoom_at set.now.state.metadata name.now }
{
    match set.text(name) {
        Some(text) => zoom_of(text.as_str()),
        None => None,
    }
}
