// Labels, types and errors of pm_format, and their texts.
use base_values::OutOfMemory;
use pm_format::{
    Compression, Directory, Header, MediumFault, PmtError, ReadCause, ReadFault, TileType,
    WriteFault,
};
use rows_shared::{Words, bytes, number, said, say, say_text};
use std::alloc::Global;
use tile_ids::{TileCoord, TileId};

fn say_compression(out: &mut String, label: Compression) -> Option<()> {
    say(out, &label)?;
    said(out, label.to_byte())?;
    said(out, label.content_encoding())
}

fn compression(out: &mut String, words: &mut Words) -> Option<()> {
    match Compression::from_byte(number(words)?) {
        Ok(label) => say_compression(out, label),
        Err(error) => say(out, &error),
    }
}

fn say_type(out: &mut String, label: TileType) -> Option<()> {
    say(out, &label)?;
    said(out, label.to_byte())?;
    said(out, label.content_type())
}

fn tile_type(out: &mut String, words: &mut Words) -> Option<()> {
    match TileType::from_byte(number(words)?) {
        Ok(label) => say_type(out, label),
        Err(error) => say(out, &error),
    }
}

// An error, as its debug text and in words.
fn say_error(out: &mut String, error: PmtError) -> Option<()> {
    say(out, &error)?;
    say_text(out, &error)
}

fn coord(out: &mut String, words: &mut Words) -> Option<()> {
    let error = TileCoord::new(number(words)?, number(words)?, number(words)?).err()?;
    say_text(out, &error)?;
    say_error(out, PmtError::from(error))
}

fn id(out: &mut String, words: &mut Words) -> Option<()> {
    let error = TileId::new(number(words)?).err()?;
    say_text(out, &error)?;
    say_error(out, PmtError::from(error))
}

fn header(alloc: Global, out: &mut String, words: &mut Words) -> Option<()> {
    let input = bytes(alloc, words)?;
    say_error(out, Header::try_from_bytes(input.as_slice()).err()?)
}

fn directory(alloc: Global, out: &mut String, words: &mut Words) -> Option<()> {
    let input = bytes(alloc, words)?;
    say_error(out, Directory::decode(alloc, input.as_slice()).err()?)
}

// Texts of the faults of media.
fn faults(out: &mut String) -> Option<()> {
    say_text(out, &ReadFault::Fault)?;
    say_text(out, &ReadFault::PastEnd)?;
    say_text(out, &ReadFault::Short { asked: 7, got: 5 })?;
    say_text(out, &ReadFault::OutOfMemory)?;
    say_text(out, &WriteFault::Fault)?;
    say_text(out, &WriteFault::OutOfMemory)?;
    say_text(out, &MediumFault)?;
    say_text(out, &OutOfMemory)
}

fn sizes(out: &mut String) -> Option<()> {
    say_error(out, PmtError::from(OutOfMemory))?;
    say_error(out, PmtError::Reading(ReadCause::PastEnd))?;
    say_error(out, PmtError::UnexpectedNumberOfBytesReturned(7, 5))
}

pub fn answer(alloc: Global, out: &mut String, words: &mut Words) -> Option<()> {
    match words.next()? {
        "compression" => compression(out, words),
        "type" => tile_type(out, words),
        "coord" => coord(out, words),
        "id" => id(out, words),
        "header" => header(alloc, out, words),
        "directory" => directory(alloc, out, words),
        "faults" => faults(out),
        "sizes" => sizes(out),
        _ => None,
    }
}
