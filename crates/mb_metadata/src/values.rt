// Single values of metadata: read, put and removed.
ghost use Rattle.mb_metadata.specs.Common.{Answers, FaultsCounted, IsBegun, Keeps, ReadsOnly, text_at};
ghost use Rattle.std.specs.Prelude.{◌≡◌, ◌≢◌, ◌∷◌, [], Err, IfOk, OnErr, OnOk, true};
ghost use Rattle.mb_metadata.specs.NameEdits.{EditsNames, done_answer, put_of};
ghost use Rattle.mb_metadata.specs.Values.{delete_edits, set_edits, value_answer, zoom_or_refused, zoom_value_answer};
ghost use Rattle.mb_metadata.specs.ZoomText.{zoom_of};

use crate::name_edits::{NameEdit, commit_edits, push_any};
use crate::zoom_text::zoom_of;
use base_values::{OutOfMemory, TextVal};
use mb_load::load;
use mb_loaded::Loaded;
use mb_store::{MbtError, MbtResult, TileStore};
use std::alloc::Global;

// A copy of the text of a name of metadata, None where there is none, or null.
fn text_of(alloc: Global, set: &Loaded, name: &str) -> Result<Option<TextVal>, OutOfMemory>
    ensures { IfOk result (λ text. text ≡ text_at set.now.state.metadata name.now) }
{
    match set.text(name) {
        Some(text) => Ok(Some(text.try_clone(alloc)?)),
        None => Ok(None),
    }
}

// The text of a name of a loaded set.
fn value_in(alloc: Global, set: &Loaded, key: &str) -> MbtResult<Option<TextVal>>
    ensures answer { Answers (value_answer key.now set.now.state) result }
    ensures fault { result ≢ Err MbtError.StoreFault }
{
    Ok(text_of(alloc, set, key)?)
}

// The zoom that a text spells, or the refusal of one that spells none.
fn zoom_in(alloc: Global, name: &'static str, text: &TextVal) -> MbtResult<Option<u8>>
    ensures answer { Answers (zoom_or_refused name.entry text.now (zoom_of text.now)) result }
    ensures fault { result ≢ Err MbtError.StoreFault }
{
    match zoom_of(text.as_str()) {
        Some(zoom) => Ok(Some(zoom)),
        None => Err(MbtError::InvalidZoomValue(name, text.try_clone(alloc)?)),
    }
}

// The zoom under a name of a loaded set.
fn zoom_value_in(alloc: Global, set: &Loaded, name: &'static str) -> MbtResult<Option<u8>>
    ensures answer { Answers (zoom_value_answer name.entry set.now.state) result }
    ensures fault { result ≢ Err MbtError.StoreFault }
{
    match set.text(name) {
        Some(text) => zoom_in(alloc, name, text),
        None => Ok(None),
    }
}

// The edit that puts a text under a name.
fn set_edits(alloc: Global, key: &str, value: &str) -> Result<Vec<NameEdit>, OutOfMemory>
    ensures { IfOk result (λ edits. edits.items ≡ put_of key.now value.now ∷ []) }
{
    let text = TextVal::new(String::from_str(alloc, value)?);
    let mut edits = Vec::new(alloc);
    edits.push(NameEdit::put(alloc, key, text)?)?;
    Ok(edits)
}

// The edit that removes a name, if it is there.
fn delete_edits(alloc: Global, set: &Loaded, key: &str) -> Result<Vec<NameEdit>, OutOfMemory>
    ensures { IfOk result (λ edits. edits.items ≡ delete_edits key.now set.now.state) }
{
    let mut edits = Vec::new(alloc);
    push_any(&mut edits, NameEdit::removal(alloc, set, key)?)?;
    Ok(edits)
}

/// The text that a set's metadata has under a name. None where the name isn't there, or null stands under it.
///
/// It answers the refusals of `load`. The store holds what it held, whatever the answer.
pub fn get_metadata_value<S: TileStore>(
    alloc: Global,
    store: &mut S,
    key: &str,
) -> MbtResult<Option<TextVal>>
    ensures answer { IsBegun (value_answer key.now) (S.tells store.old) (S.told store.old) result }
    ensures kept { ReadsOnly S.told S.tells S.faults S.steady store.old store.new }
    ensures fault { FaultsCounted S.faults store.old store.new result MbtError.StoreFault }
{
    let set = load(alloc, store)?;
    value_in(alloc, &set, key)
}

/// The zoom, 0 to 255, that the text under a name of a set's metadata spells, as std reads a `u8`. None where the name
/// isn't there, or null stands under it.
///
/// It answers the refusals of `load`, and then `InvalidZoomValue` with the name and the text exactly where that text
/// spells none. The store holds what it held, whatever the answer.
pub fn get_metadata_zoom_value<S: TileStore>(
    alloc: Global,
    store: &mut S,
    zoom_name: &'static str,
) -> MbtResult<Option<u8>>
    ensures answer { IsBegun (zoom_value_answer zoom_name.entry) (S.tells store.old)
        (S.told store.old) result }
    ensures kept { ReadsOnly S.told S.tells S.faults S.steady store.old store.new }
    ensures fault { FaultsCounted S.faults store.old store.new result MbtError.StoreFault }
{
    let set = load(alloc, store)?;
    zoom_value_in(alloc, &set, zoom_name)
}

/// Puts a text under a name of a set's metadata, in the place of what it had there, in one commit. Under
/// `hash_algorithm` too it changes nothing else: where the text is no name of an algorithm, or that of another one,
/// the set may load no more.
///
/// It answers the refusals of `load`; refused, the store holds what it held. All other rows stay as they were.
pub fn set_metadata_value<S: TileStore>(
    alloc: Global,
    store: &mut S,
    key: &str,
    value: &str,
) -> MbtResult<()>
    ensures answer { IsBegun done_answer (S.tells store.old) (S.told store.old) result }
    ensures committed { S.tells store.old ≡ true → OnOk result
        (EditsNames (set_edits key.now value.now) (S.told store.old) (S.told store.new)) }
    ensures refused { OnErr result (S.told store.new ≡ S.told store.old) }
    ensures kept { Keeps S.tells S.faults S.steady store.old store.new }
    ensures fault { FaultsCounted S.faults store.old store.new result MbtError.StoreFault }
{
    let set = load(alloc, store)?;
    let edits = set_edits(alloc, key, value)?;
    commit_edits(alloc, store, set, edits)?;
    Ok(())
}

/// Removes a name of a set's metadata with what it has there, a text or null, in one commit. Where the name isn't
/// there nothing is committed.
///
/// It answers the refusals of `load`; refused, the store holds what it held. All other rows stay as they were.
pub fn delete_metadata_value<S: TileStore>(alloc: Global, store: &mut S, key: &str) -> MbtResult<()>
    ensures answer { IsBegun done_answer (S.tells store.old) (S.told store.old) result }
    ensures committed { S.tells store.old ≡ true → OnOk result
        (EditsNames (delete_edits key.now) (S.told store.old) (S.told store.new)) }
    ensures refused { OnErr result (S.told store.new ≡ S.told store.old) }
    ensures kept { Keeps S.tells S.faults S.steady store.old store.new }
    ensures fault { FaultsCounted S.faults store.old store.new result MbtError.StoreFault }
{
    let set = load(alloc, store)?;
    let edits = delete_edits(alloc, &set, key)?;
    commit_edits(alloc, store, set, edits)?;
    Ok(())
}
