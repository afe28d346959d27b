// XXH64 with seed 0 of bytes that come in pieces.
ghost use Rattle.std.specs.Prelude.{◌≡◌, ◌+◌, ◌%◌, ◌^◌, ◌<◌, ℕ, List, [], ◌++◌, length};
ghost use Rattle.tile_hash.specs.Xxh64.{xxh64};
ghost use Rattle.tile_hash.specs.Xxh64Stream.{HasTaken};

use super::{FIRST_LANES, after_rest, avalanche, begun, striped};

/// XXH64 of bytes that come in pieces. The bytes behind the last whole stripe are kept.
#[derive(Drop)]
pub(crate) struct Xxh64Stream {
    lanes: [u64; 4],
    buffer: [u8; 32],
    // The number of bytes so far, modulo 2^64, and whether they are fewer than 32.
    total: u64,
    is_short: bool,
}

impl Xxh64Stream {
    /// A stream that was given no bytes.
    pub(crate) fn new() -> Xxh64Stream
        ensures { HasTaken result [] }
    {
        Xxh64Stream {
            lanes: FIRST_LANES,
            buffer: [0; 32],
            total: 0,
            is_short: true,
        }
    }

    // Keeps bytes that don't end a stripe.
    fn keep(&mut self, piece: &[u8])
        requires { self.old.total % 32 + length piece.now < 32 }
        ensures { (m : List ℕ) → HasTaken self.old m → HasTaken self.new (m ++ piece.now) }
    {
        let used = (self.total % 32) as usize;
        self.buffer[used..used + piece.len()].copy_from_slice(piece);
        self.total = self.total.wrapping_add(piece.len() as u64);
    }

    // Takes the bytes that end the stripe of those that are kept.
    fn fill(&mut self, piece: &[u8])
        requires { self.old.total % 32 + length piece.now ≡ 32 }
        ensures total { self.new.total ≡ (self.old.total + length piece.now) % 2 ^ 64 }
        ensures taken { (m : List ℕ) → HasTaken self.old m → HasTaken self.new (m ++ piece.now) }
    {
        let used = (self.total % 32) as usize;
        self.buffer[used..].copy_from_slice(piece);
        let next = striped(self.lanes, &self.buffer, 0);
        self.lanes = next;
        self.total = self.total.wrapping_add(piece.len() as u64);
        self.is_short = false;
    }

    // Takes whole stripes, where no bytes are kept.
    fn take_stripes(&mut self, piece: &[u8])
        requires none { self.old.total % 32 ≡ 0 }
        requires whole { length piece.now % 32 ≡ 0 }
        ensures total { self.new.total ≡ (self.old.total + length piece.now) % 2 ^ 64 }
        ensures taken { (m : List ℕ) → HasTaken self.old m → HasTaken self.new (m ++ piece.now) }
    {
        let mut v = self.lanes;
        for i in 0..piece.len() / 32 {
            let next = striped(v, piece, 32 * i);
            v = next;
        }
        self.lanes = v;
        self.total = self.total.wrapping_add(piece.len() as u64);
        self.is_short = self.is_short & (piece.len() == 0);
    }

    // Takes bytes, where none are kept.
    fn take(&mut self, piece: &[u8])
        requires { self.old.total % 32 ≡ 0 }
        ensures { (m : List ℕ) → HasTaken self.old m → HasTaken self.new (m ++ piece.now) }
    {
        let (whole, rest) = piece.split_at(piece.len() - piece.len() % 32);
        self.take_stripes(whole);
        self.keep(rest);
    }

    /// Takes the next piece.
    #[inline(never)]
    pub(crate) fn update(&mut self, piece: &[u8])
        ensures { (m : List ℕ) → HasTaken self.old m → HasTaken self.new (m ++ piece.now) }
    {
        let used = (self.total % 32) as usize;
        if used + piece.len() < 32 {
            self.keep(piece);
        } else if used == 0 {
            self.take(piece);
        } else {
            let (front, back) = piece.split_at(32 - used);
            self.fill(front);
            self.take(back);
        }
    }

    /// The XXH64 hash of all pieces together.
    pub(crate) fn finish(self) -> u64
        ensures { (m : List ℕ) → HasTaken self m → result ≡ xxh64 m }
    {
        let used = (self.total % 32) as usize;
        let hash = begun(self.lanes, self.is_short, self.total);
        avalanche(after_rest(hash, &self.buffer[..used]))
    }
}
