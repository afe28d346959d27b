// Numbers of 64 bits: reading them from bytes, turning and shifting them.
ghost use Rattle.std.specs.Prelude.{◌≡◌, ◌+◌, ◌<◌, ◌≤◌, length};
ghost use Rattle.tile_hash.specs.Words.{rotl, xor_shifted, word32, word64};

// The primes of the xxHash specification.
pub(crate) const PRIME64_1: u64 = 0x9E37_79B1_85EB_CA87;

pub(crate) const PRIME64_2: u64 = 0xC2B2_AE3D_27D4_EB4F;

pub(crate) const PRIME64_3: u64 = 0x1656_67B1_9E37_79F9;

pub(crate) const PRIME64_4: u64 = 0x85EB_CA77_C2B2_AE63;

pub(crate) const PRIME64_5: u64 = 0x27D4_EB2F_1656_67C5;

/// The 8 bytes from this byte on as a number, low byte first.
#[inline(always)]
#[tactic(auto, unfolding(crate::specs::Words::word64))]
pub(crate) fn word64(bytes: &[u8], at: usize) -> u64
    requires { at + 8 ≤ length bytes.now }
    ensures { result ≡ word64 bytes.now at }
{
    u64::from_le_bytes([
        bytes[at],
        bytes[at + 1],
        bytes[at + 2],
        bytes[at + 3],
        bytes[at + 4],
        bytes[at + 5],
        bytes[at + 6],
        bytes[at + 7],
    ])
}

/// The 4 bytes from this byte on as a number, low byte first.
#[inline(always)]
#[tactic(auto, unfolding(crate::specs::Words::word32))]
pub(crate) fn word32(bytes: &[u8], at: usize) -> u32
    requires { at + 4 ≤ length bytes.now }
    ensures { result ≡ word32 bytes.now at }
{
    u32::from_le_bytes([bytes[at], bytes[at + 1], bytes[at + 2], bytes[at + 3]])
}

/// The number turned left by so many bits.
#[inline(always)]
#[tactic(auto, unfolding(crate::specs::Words::rotl))]
pub(crate) fn rotl(x: u64, by: u32) -> u64
    ensures { result ≡ rotl x by }
{
    x.rotate_left(by)
}

/// The number xored with itself shifted right by so many bits.
#[inline(always)]
#[tactic(auto, unfolding(crate::specs::Words::xor_shifted))]
pub(crate) fn xor_shifted(x: u64, by: u32) -> u64
    requires { by < 64 }
    ensures { result ≡ xor_shifted x by }
{
    x ^ (x >> by)
}
