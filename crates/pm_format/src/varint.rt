// Varints: seven bits a byte, the low part first; the top bit says that another byte follows.
ghost use Rattle.std.specs.Prelude.{◌≡◌, ◌≤◌, ◌<◌, ◌+◌, ◌*◌, ◌^◌, ◌++◌, Some, None, length, drop, IfOk, IfErr, OnOk, OnErr};
ghost use Rattle.pm_format.specs.Varint.{u32_at, u64_at, number_at, varint};

use crate::PmtError;
use base_values::OutOfMemory;

/// Appends the short spelling of a number. After `OutOfMemory` nothing has changed.
pub fn write_varint(out: &mut Vec<u8>, value: u64) -> Result<(), OutOfMemory>
    ensures ok { OnOk result (out.new.items ≡ out.old.items ++ varint value) }
    ensures err { OnErr result (out.new.items ≡ out.old.items) }
{
    let before = out.len();
    let mut rest = value;
    while rest >= 128 {
        if out.push((rest % 128) as u8 + 128).is_err() {
            out.truncate(before);
            return Err(OutOfMemory);
        }
        rest /= 128;
    }
    if out.push(rest as u8).is_err() {
        out.truncate(before);
        return Err(OutOfMemory);
    }
    Ok(())
}

/// The u64 that is spelled at a place, padded or not, and the place after it. `InvalidEntry` where the bytes end within
/// the spelling, it is longer than ten bytes, or the number is above u64.
pub fn read_varint_u64(bytes: &[u8], at: usize) -> Result<(u64, usize), PmtError>
    requires { at ≤ length bytes.now }
    ensures found { IfOk result (λ r. u64_at (drop at bytes.now) ≡ Some (r.0, drop r.1 bytes.now)) }
    ensures place { IfOk result (λ r. (at < r.1) × (r.1 ≤ length bytes.now)) }
    ensures none { OnErr result (u64_at (drop at bytes.now) ≡ None) }
    ensures error { IfErr result (λ e. e ≡ PmtError.InvalidEntry) }
{
    read_number(bytes, at, 9, 1)
}

/// The u32 that is spelled at a place, padded or not, and the place after it. `InvalidEntry` where the bytes end within
/// the spelling, it is longer than five bytes, or the number is above u32.
pub fn read_varint_u32(bytes: &[u8], at: usize) -> Result<(u32, usize), PmtError>
    requires { at ≤ length bytes.now }
    ensures found { IfOk result (λ r. u32_at (drop at bytes.now) ≡ Some (r.0, drop r.1 bytes.now)) }
    ensures place { IfOk result (λ r. (at < r.1) × (r.1 ≤ length bytes.now)) }
    ensures none { OnErr result (u32_at (drop at bytes.now) ≡ None) }
    ensures error { IfErr result (λ e. e ≡ PmtError.InvalidEntry) }
{
    let Ok((number, next)) = read_number(bytes, at, 4, 15) else {
        return Err(PmtError::InvalidEntry);
    };
    Ok((number as u32, next))
}

// A number in at most one byte more than `full`, of which the last is at most `top`.
#[inline]
fn read_number(bytes: &[u8], at: usize, full: u32, top: u8) -> Result<(u64, usize), PmtError>
    requires place { at ≤ length bytes.now }
    requires full { full ≤ 9 }
    requires top { top < 128 }
    requires fits { (top + 1) * 2 ^ (7 * full) ≤ 2 ^ 64 }
    ensures found { IfOk result
        (λ r. number_at (full + 1) ((top + 1) * 2 ^ (7 * full)) (drop at bytes.now)
        ≡ Some (r.0, drop r.1 bytes.now)) }
    ensures place { IfOk result (λ r. (at < r.1) × (r.1 ≤ length bytes.now)) }
    ensures low { IfOk result (λ r. r.0 < (top + 1) * 2 ^ (7 * full)) }
    ensures none { OnErr result
        (number_at (full + 1) ((top + 1) * 2 ^ (7 * full)) (drop at bytes.now) ≡ None) }
    ensures error { IfErr result (λ e. e ≡ PmtError.InvalidEntry) }
{
    let mut value: u64 = 0;
    let mut place = at;
    for i in 0..full {
        if place >= bytes.len() {
            return Err(PmtError::InvalidEntry);
        }
        let byte = bytes[place];
        place += 1;
        value += u64::from(byte % 128) << (7 * i);
        if byte < 128 {
            return Ok((value, place));
        }
    }
    if place >= bytes.len() {
        return Err(PmtError::InvalidEntry);
    }
    let last = bytes[place];
    if last > top {
        return Err(PmtError::InvalidEntry);
    }
    Ok((value + (u64::from(last) << (7 * full)), place + 1))
}
