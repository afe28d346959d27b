// Ten millionths of a degree as decimals.
ghost use Rattle.std.specs.Prelude.{◌≡◌, ◌<◌, IfOk, string_bytes};
ghost use Rattle.set_options.specs.DegreesText.{degrees_text, fraction_text, size_text};

use base_values::OutOfMemory;
use std::alloc::Global;

// The digits of a part of a degree, up to the last one that isn't 0.
fn fraction_text(alloc: Global, places: u32, part: u32) -> Result<String, OutOfMemory>
    requires { part < 10000000 }
    ensures { IfOk result (λ text. string_bytes text ≡ fraction_text places part) }
{
    if places == 0 {
        return Ok(String::new(alloc));
    }
    if part == 0 {
        return Ok(String::new(alloc));
    }
    let digit = part * 10 / 10_000_000;
    let rest = fraction_text(alloc, places - 1, part * 10 % 10_000_000)?;
    Ok(format!(in alloc; "{digit}{rest}")?)
}

// Degrees without a sign.
fn size_text(alloc: Global, size: u32) -> Result<String, OutOfMemory>
    ensures { IfOk result (λ text. string_bytes text ≡ size_text size) }
{
    let whole = size / 10_000_000;
    let part = size % 10_000_000;
    if part == 0 {
        return Ok(format!(in alloc; "{whole}")?);
    }
    let fraction = fraction_text(alloc, 7, part)?;
    Ok(format!(in alloc; "{whole}.{fraction}")?)
}

/// The shortest decimal that says a number of ten millionths of a degree exactly.
pub fn degrees_text(alloc: Global, degrees: i32) -> Result<String, OutOfMemory>
    ensures { IfOk result (λ text. string_bytes text ≡ degrees_text degrees) }
{
    let size = size_text(alloc, degrees.unsigned_abs())?;
    if degrees.is_negative() {
        Ok(format!(in alloc; "-{size}")?)
    } else {
        Ok(size)
    }
}
