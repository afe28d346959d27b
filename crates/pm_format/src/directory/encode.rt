// Directories as bytes.
ghost use Rattle.std.specs.Prelude.{◌≡◌, ◌++◌, All, None, map, IfOk, OnOk};
ghost use Rattle.pm_format.specs.Directory.{IsPlaced, IsWritable, dir_bytes, spell_all, starts_from, steps_from};

use super::Directory;
use crate::{AsWide, write_varint};
use base_values::OutOfMemory;
use std::alloc::Global;

impl Directory {
    /// The bytes of the directory, each number by its short spelling. Every offset is to be below `u64::MAX`, and every
    /// offset plus length within u64.
    pub fn encode(&self, alloc: Global) -> Result<Vec<u8>, OutOfMemory>
        requires { All IsPlaced self.now }
        ensures { IfOk result (λ v. v.items ≡ dir_bytes self.now) }
    {
        encode_entries(alloc, self.entries())
    }
}

/// The bytes of the directory of these entries, as `encode` gives them. The ids are not to fall, every offset is to be
/// below `u64::MAX`, and every offset plus length within u64.
pub fn encode_entries<E: AsWide>(alloc: Global, entries: &[E]) -> Result<Vec<u8>, OutOfMemory>
    requires { IsWritable 0 (map E.entry entries.now) }
    ensures { IfOk result (λ v. v.items ≡ dir_bytes (map E.entry entries.now)) }
{
    let mut out = Vec::with_capacity(alloc, entries.len().saturating_mul(4))?;
    write_varint(&mut out, entries.len() as u64)?;
    write_ids(&mut out, entries)?;
    write_runs(&mut out, entries)?;
    write_lengths(&mut out, entries)?;
    write_offsets(&mut out, entries)?;
    Ok(out)
}

fn write_ids<E: AsWide>(out: &mut Vec<u8>, entries: &[E]) -> Result<(), OutOfMemory>
    requires { IsWritable 0 (map E.entry entries.now) }
    ensures { OnOk result
        (out.new.items ≡ out.old.items ++ spell_all (steps_from 0 (map E.entry entries.now))) }
{
    let mut last = 0;
    for entry in entries {
        let id = entry.wide().tile_id;
        write_varint(out, id - last)?;
        last = id;
    }
    Ok(())
}

fn write_runs<E: AsWide>(out: &mut Vec<u8>, entries: &[E]) -> Result<(), OutOfMemory>
    ensures { OnOk result (out.new.items ≡ out.old.items ++ spell_all
        (map (λ e. e.run_length) (map E.entry entries.now))) }
{
    for entry in entries {
        write_varint(out, u64::from(entry.wide().run_length))?;
    }
    Ok(())
}

fn write_lengths<E: AsWide>(out: &mut Vec<u8>, entries: &[E]) -> Result<(), OutOfMemory>
    ensures { OnOk result (out.new.items ≡ out.old.items ++ spell_all
        (map (λ e. e.length) (map E.entry entries.now))) }
{
    for entry in entries {
        write_varint(out, entry.wide().length)?;
    }
    Ok(())
}

fn write_offsets<E: AsWide>(out: &mut Vec<u8>, entries: &[E]) -> Result<(), OutOfMemory>
    requires { IsWritable 0 (map E.entry entries.now) }
    ensures { OnOk result
        (out.new.items ≡ out.old.items ++ spell_all (starts_from None (map E.entry entries.now))) }
{
    let mut end = None;
    for entry in entries {
        let wide = entry.wide();
        let follows = end == Some(wide.offset);
        write_varint(out, if follows { 0 } else { wide.offset + 1 })?;
        end = Some(wide.offset + wide.length);
    }
    Ok(())
}
