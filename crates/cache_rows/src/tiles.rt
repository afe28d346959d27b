// Tiles of a line: their coordinates, and what is kept beside their bytes.
use base_values::TextVal;
use mb_cache::{CacheEntryMeta, UnixSeconds};
use rows_shared::{Words, bytes, number};
use set_words::owned;
use std::alloc::Global;

/// Three numbers.
#[derive(Clone, Copy)]
pub struct At {
    pub z: u8,
    pub x: u32,
    pub y: u32,
}

/// The next three words.
pub fn at_in(words: &mut Words) -> Option<At> {
    let z = number(words)?;
    let x = number(words)?;
    let y = number(words)?;
    Some(At { z, x, y })
}

/// When a tile was fetched, when it expires, and its tag.
#[derive(Drop)]
pub struct Beside {
    fetched: Option<UnixSeconds>,
    expires: Option<UnixSeconds>,
    etag: Option<TextVal>,
}

// A moment, `-` for none.
fn moment(words: &mut Words) -> Option<UnixSeconds> {
    match number::<i64>(words) {
        Some(seconds) => Some(UnixSeconds(seconds)),
        None => None,
    }
}

/// The next three words: two moments and a tag, `-` for none.
fn beside_in(alloc: Global, words: &mut Words) -> Option<Beside> {
    let fetched = moment(words);
    let expires = moment(words);
    let etag = match words.next()?.strip_prefix('t') {
        Some(text) => Some(owned(alloc, text)?),
        None => None,
    };
    Some(Beside {
        fetched,
        expires,
        etag,
    })
}

impl Beside {
    /// The same, as a cache takes it.
    pub fn meta(&self) -> CacheEntryMeta<'_> {
        let etag = match &self.etag {
            Some(text) => Some(text.as_str()),
            None => None,
        };
        CacheEntryMeta {
            fetched: self.fetched,
            expires: self.expires,
            etag,
        }
    }
}

/// Where a tile is, its bytes, and what is kept beside them.
#[derive(Drop)]
pub struct Given {
    pub at: At,
    pub data: Vec<u8>,
    pub beside: Beside,
}

/// The next seven words.
pub fn given_in(alloc: Global, words: &mut Words) -> Option<Given> {
    let at = at_in(words)?;
    let data = bytes(alloc, words)?;
    let beside = beside_in(alloc, words)?;
    Some(Given { at, data, beside })
}

/// Where a tile is, and what is kept beside its bytes.
#[derive(Drop)]
pub struct Times {
    pub at: At,
    pub beside: Beside,
}

/// The next six words.
pub fn times_in(alloc: Global, words: &mut Words) -> Option<Times> {
    let at = at_in(words)?;
    let beside = beside_in(alloc, words)?;
    Some(Times { at, beside })
}
