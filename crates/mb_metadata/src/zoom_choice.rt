// Whether a computed zoom takes the place of a stored one.
ghost use Rattle.std.specs.Prelude.{◌≡◌};
ghost use Rattle.mb_metadata.specs.Updating.{grows, is_set, update_zoom_words};

use std::fmt;

/// How an update of metadata treats zooms that are stored. Where none is stored, or a text that spells none, the
/// computed one is stored in each mode.
#[derive(Clone, Copy, Debug, PartialEq, Eq)]
pub enum UpdateZoomType {
    /// The computed zoom is stored.
    Reset,
    /// The computed zoom is stored where the range grows: where it is below the stored least, or
    /// above the stored greatest.
    GrowOnly,
    /// A stored zoom stays.
    Skip,
}

impl Default for UpdateZoomType {
    ghost use Rattle.mb_metadata.specs.declared.zoom_choice.UpdateZoomType.TheVariants.{Reset};

    ghost is_default = { λ mode. mode ≡ Reset };

    fn default() -> UpdateZoomType {
        UpdateZoomType::Reset
    }
}

impl UpdateZoomType {
    // Its words in lower case.
    fn words(self) -> &'static str
        ensures { result.now ≡ update_zoom_words self }
    {
        match self {
            UpdateZoomType::Reset => "reset",
            UpdateZoomType::GrowOnly => "grow-only",
            UpdateZoomType::Skip => "skip",
        }
    }
}

impl fmt::Display for UpdateZoomType {
    ghost use Rattle.std.specs.Prelude.{Some};
    ghost use Rattle.mb_metadata.specs.Updating.{update_zoom_words};

    ghost output = { λ t. Some (update_zoom_words t) };

    fn fmt<W: fmt::Write>(&self, f: &mut fmt::Formatter<W>) -> fmt::Result {
        let words = self.words();
        write!(f, "{words}")
    }
}

// Whether the range grows where a computed zoom takes the place of the stored greatest, or least.
fn grows(is_max: bool, stored: u8, computed: u8) -> bool
    ensures { result ≡ grows is_max stored computed }
{
    if is_max {
        stored < computed
    } else {
        computed < stored
    }
}

/// Whether a computed zoom is stored as the greatest, or as the least, where a zoom is stored or none is.
pub(crate) fn is_set(mode: UpdateZoomType, is_max: bool, stored: Option<u8>, computed: u8) -> bool
    ensures { result ≡ is_set mode is_max stored computed }
{
    match stored {
        None => true,
        Some(stored) => match mode {
            UpdateZoomType::Reset => stored != computed,
            UpdateZoomType::GrowOnly => grows(is_max, stored, computed),
            UpdateZoomType::Skip => false,
        },
    }
}
