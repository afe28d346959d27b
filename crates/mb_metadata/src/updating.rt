// The zooms that metadata names, by the tiles of the set.
ghost use Rattle.mb_metadata.specs.Common.{FaultsCounted, IsBegun, Keeps, State, state_of};
ghost use Rattle.std.specs.Prelude.{◌≡◌, ◌++◌, Ok, IfOk, OnErr, OnOk, option_to_list, true};
ghost use Rattle.mb_metadata.specs.NameEdits.{EditsNames, done_answer, held_edited};
ghost use Rattle.mb_metadata.specs.Updating.{both_edits, removals, state_updated, update_edits, zoom_edit, zoom_edits};

use crate::UpdateZoomType;
use crate::name_edits::{NameEdit, after_edits, commit_edits, push_any};
use crate::zoom_choice::is_set;
use crate::zoom_text::zoom_at;
use crate::zooms::zooms_in;
use base_values::{OutOfMemory, TextVal};
use mb_load::load;
use mb_loaded::Loaded;
use mb_store::{MbtError, MbtResult, TileStore};
use std::alloc::Global;

// The list of two edits, as far as they are there.
fn listed(
    alloc: Global,
    first: Option<NameEdit>,
    second: Option<NameEdit>,
) -> Result<Vec<NameEdit>, OutOfMemory>
    ensures { IfOk result (λ edits. edits.items ≡ option_to_list first ++ option_to_list second) }
{
    let mut edits = Vec::with_capacity(alloc, 2)?;
    push_any(&mut edits, first)?;
    push_any(&mut edits, second)?;
    Ok(edits)
}

// The edit of a name of a zoom, if the computed one is stored under it.
fn zoom_edit(
    alloc: Global,
    set: &Loaded,
    mode: UpdateZoomType,
    is_max: bool,
    name: &str,
    computed: u8,
) -> Result<Option<NameEdit>, OutOfMemory>
    ensures { IfOk result (λ e. e
        ≡ zoom_edit mode is_max set.now.state.metadata name.now computed) }
{
    if !is_set(mode, is_max, zoom_at(set, name), computed) {
        return Ok(None);
    }
    let text = TextVal::new(format!(in alloc; "{computed}")?);
    Ok(Some(NameEdit::put(alloc, name, text)?))
}

// The edits of both names by the least and the greatest zoom of the tiles.
fn both_edits(
    alloc: Global,
    set: &Loaded,
    mode: UpdateZoomType,
    zooms: (u8, u8),
) -> Result<Vec<NameEdit>, OutOfMemory>
    ensures { IfOk result (λ edits. edits.items ≡ both_edits mode set.now.state.metadata zooms) }
{
    let least = zoom_edit(alloc, set, mode, false, "minzoom", zooms.0)?;
    let greatest = zoom_edit(alloc, set, mode, true, "maxzoom", zooms.1)?;
    listed(alloc, least, greatest)
}

// The edits that remove both names, where they are there.
fn removals(alloc: Global, set: &Loaded) -> Result<Vec<NameEdit>, OutOfMemory>
    ensures { IfOk result (λ edits. edits.items ≡ removals set.now.state.metadata) }
{
    let least = NameEdit::removal(alloc, set, "minzoom")?;
    let greatest = NameEdit::removal(alloc, set, "maxzoom")?;
    listed(alloc, least, greatest)
}

// The edits that an update makes of a loaded set whose tiles have these zooms.
fn zoom_edits(
    alloc: Global,
    set: &Loaded,
    mode: UpdateZoomType,
    zooms: Option<(u8, u8)>,
) -> Result<Vec<NameEdit>, OutOfMemory>
    ensures { IfOk result (λ edits. edits.items ≡ zoom_edits mode set.now.state.metadata zooms) }
{
    match zooms {
        Some(zooms) => both_edits(alloc, set, mode, zooms),
        None => match mode {
            UpdateZoomType::Reset => removals(alloc, set),
            UpdateZoomType::GrowOnly | UpdateZoomType::Skip => Ok(Vec::new(alloc)),
        },
    }
}

// The edits that an update makes of a loaded set.
fn update_edits(
    alloc: Global,
    set: &Loaded,
    mode: UpdateZoomType,
) -> Result<Vec<NameEdit>, OutOfMemory>
    ensures { IfOk result (λ edits. edits.items ≡ update_edits mode set.now.state) }
{
    zoom_edits(alloc, set, mode, zooms_in(set))
}

/// A loaded set whose metadata names the zooms of its tiles, as `update_metadata` stores them. Only
/// running out of memory refuses it.
pub fn with_zooms(
    alloc: Global,
    set: Loaded,
    update_zoom: UpdateZoomType,
) -> Result<Loaded, OutOfMemory>
    ensures { IfOk result (λ h. h ≡ held_edited set (update_edits update_zoom set.state)) }
{
    let edits = update_edits(alloc, &set, update_zoom)?;
    Ok(after_edits(set, edits)?)
}

/// Stores the least and the greatest zoom of a set's tiles, null ones included, under `minzoom` and `maxzoom` of its
/// metadata, in one commit. Under each of the two a zoom that isn't there, or a text that spells none, is replaced in
/// every mode, and an equal one stays. Another one is replaced by `Reset`, by `GrowOnly` where the range grows, and by
/// `Skip` never. Where the set has no tile, `Reset` removes both names, and the other modes change nothing. Where
/// nothing changes nothing is committed.
///
/// It answers the refusals of `load`; refused, the store holds what it held. After Ok the set loads again; all
/// other rows stay as they were.
pub fn update_metadata<S: TileStore>(
    alloc: Global,
    store: &mut S,
    update_zoom: UpdateZoomType,
) -> MbtResult<()>
    ensures answer { IsBegun done_answer (S.tells store.old) (S.told store.old) result }
    ensures committed { S.tells store.old ≡ true → OnOk result
        (EditsNames (update_edits update_zoom) (S.told store.old) (S.told store.new)) }
    ensures again { S.tells store.old ≡ true → OnOk result ((s : State)
        → state_of (S.told store.old) ≡ Ok s
        → state_of (S.told store.new) ≡ Ok (state_updated update_zoom s)) }
    ensures refused { OnErr result (S.told store.new ≡ S.told store.old) }
    ensures kept { Keeps S.tells S.faults S.steady store.old store.new }
    ensures fault { FaultsCounted S.faults store.old store.new result MbtError.StoreFault }
{
    let set = load(alloc, store)?;
    let edits = update_edits(alloc, &set, update_zoom)?;
    commit_edits(alloc, store, set, edits)?;
    Ok(())
}
