// XXH3 with 64 bits and seed 0 of bytes that come in pieces.
ghost use Rattle.std.specs.Prelude.{◌≡◌, ◌≢◌, ◌+◌, ◌%◌, ◌≤◌, ◌<◌, ℕ, List, [], ◌++◌, ◌*◌, ◌-◌, length, take, drop};
ghost use Rattle.tile_hash.specs.Xxh3.{xxh3_64};

use super::long::{FIRST_LANES, lanes_merged, striped, taken};
use super::xxh3_64;
use crate::words::PRIME64_1;

const ROOM: usize = 256;

/// XXH3 of bytes that come in pieces. The last bytes are kept, at least 64 of them if there are so many.
#[derive(Drop)]
pub(crate) struct Xxh3Stream {
    // The lanes after the stripes that were taken, and how many of these stand in the last block.
    lanes: [u64; 8],
    stripe: usize,
    // The last bytes, and how many of them, in front, are the last stripe that was taken.
    buffer: [u8; 256],
    used: usize,
    done: usize,
    // The number of bytes so far, modulo 2^64.
    total: u64,
    ghost in_block: { stripe < 16 },
    ghost in_room: { used ≤ 256 },
    ghost in_stripe: { done ≤ 64 },
    ghost behind: { done ≢ 0 → 64 < used },
}

// The last 64 bytes of those that are kept and of whole stripes behind them.
fn last_stripe(buffer: &[u8], more: &[u8]) -> [u8; 64]
    requires room { length buffer.now ≡ 256 }
    requires whole { length more.now % 64 ≡ 0 }
    ensures { result ≡ drop (192 + length more.now) (buffer.now ++ more.now) }
{
    let mut last = [0; 64];
    if more.len() == 0 {
        last.copy_from_slice(&buffer[192..]);
    } else {
        last.copy_from_slice(&more[more.len() - 64..]);
    }
    last
}

// The last stripe of those that are kept and of so many behind them, and the bytes that follow it.
fn kept_of(buffer: &[u8], more: &[u8], count: usize) -> [u8; 256]
    requires room { length buffer.now ≡ 256 }
    requires within { 64 * count ≤ length more.now }
    requires few { length more.now ≤ 64 * count + 64 }
    ensures { take (64 + length more.now - 64 * count) result
        ≡ drop (192 + 64 * count) (buffer.now ++ more.now) }
{
    let last = last_stripe(buffer, &more[..64 * count]);
    let rest = &more[64 * count..];
    let mut kept = [0; 256];
    kept[..64].copy_from_slice(&last);
    kept[64..64 + rest.len()].copy_from_slice(rest);
    kept
}

impl Xxh3Stream {
    ghost use Rattle.tile_hash.specs.Xxh3Stream.{HasTaken};

    /// A stream that was given no bytes.
    pub(crate) fn new() -> Xxh3Stream
        ensures { HasTaken result [] }
    {
        Xxh3Stream {
            lanes: FIRST_LANES,
            stripe: 0,
            buffer: [0; 256],
            used: 0,
            done: 0,
            total: 0,
        }
    }

    // Keeps bytes for which there is room.
    fn keep(&mut self, piece: &[u8])
        requires { self.old.used + length piece.now ≤ 256 }
        ensures used { self.new.used ≡ self.old.used + length piece.now }
        ensures taken { (m : List ℕ) → HasTaken self.old m → HasTaken self.new (m ++ piece.now) }
    {
        let end = self.used + piece.len();
        self.buffer[self.used..end].copy_from_slice(piece);
        self.used = end;
        self.total = self.total.wrapping_add(piece.len() as u64);
    }

    // Takes all stripes that end before the last byte, where there is no room.
    fn take(&mut self, more: &[u8])
        requires full { self.old.used ≡ 256 }
        requires some { 0 < length more.now }
        ensures { (m : List ℕ) → HasTaken self.old m → HasTaken self.new (m ++ more.now) }
    {
        let within = (ROOM - self.done) / 64;
        let count = (more.len() - 1) / 64;
        let lanes = taken(self.lanes, &self.buffer, self.done, self.stripe, within);
        let next = taken(lanes, more, 0, self.stripe + within, count);
        let kept = kept_of(&self.buffer, more, count);
        self.lanes = next;
        self.stripe = (self.stripe + within + count) % 16;
        self.buffer = kept;
        self.used = 64 + more.len() - 64 * count;
        self.done = 64;
        self.total = self.total.wrapping_add(more.len() as u64);
    }

    /// Takes the next piece.
    #[inline(never)]
    pub(crate) fn update(&mut self, piece: &[u8])
        ensures { (m : List ℕ) → HasTaken self.old m → HasTaken self.new (m ++ piece.now) }
    {
        let room = ROOM - self.used;
        if piece.len() <= room {
            self.keep(piece);
        } else {
            let (front, back) = piece.split_at(room);
            self.keep(front);
            self.take(back);
        }
    }

    /// The XXH3 hash of all pieces together.
    pub(crate) fn finish(self) -> u64
        ensures { (m : List ℕ) → HasTaken self m → result ≡ xxh3_64 m }
    {
        if self.done == 0 {
            return xxh3_64(&self.buffer[..self.used]);
        }
        let count = (self.used - 65) / 64;
        let lanes = taken(self.lanes, &self.buffer, 64, self.stripe, count);
        let last = striped(lanes, &self.buffer, self.used - 64, 121);
        lanes_merged(last, self.total.wrapping_mul(PRIME64_1))
    }
}
