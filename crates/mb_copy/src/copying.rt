// Copying one store into another.
ghost use Rattle.std.specs.Prelude.{◌≡◌, ◌⊎◌, [], IfErr, IfOk, IsErrOf, OnErr, OnOk, false, true};
ghost use Rattle.mb_copy.specs.Common.{Answers, FaultsCounted, fresh, IsBegun, Keeps, ReadsOnly, refused_by, Rose, Tests};
ghost use Rattle.mb_copy.specs.Clearing.{IsSource};
ghost use Rattle.mb_copy.specs.CopyOrder.{made_state, may_copy, may_copy_over, over_answer};
ghost use Rattle.mb_copy.specs.Copying.{IsAnew, IsAnswered, IsCopied, IsCopiedBy, IsLeft, IsLeftBy, IsOver, IsPutInto, has_any};
ghost use Rattle.mb_copy.specs.HeldCopied.{held_copied};
ghost use Rattle.mb_copy.specs.PatchOrder.{may_copy_anew};

use crate::MbtilesCopier;
use crate::commit_anew::commit_anew;
use crate::copied::copied;
use crate::patch_order::test_expected;
use crate::refusals::{test_kind, test_mode, test_valid};
use crate::target::{made_type, wanted_algorithm};
use base_values::TextVal;
use mb_edit::test_editable;
use mb_load::{commit_loaded, load};
use mb_loaded::Loaded;
use mb_store::{MbtError, MbtResult, TileStore, is_empty_database};
use std::alloc::Global;

// A loaded destination with a source copied into it, or the first refusal.
fn copied_over(
    alloc: Global,
    copier: &MbtilesCopier,
    source: Loaded,
    base: Loaded,
) -> MbtResult<Loaded>
    requires { IsSource source.state }
    ensures tests { Tests (may_copy_over copier.now source.state base.state) result }
    ensures value { IfOk result (λ h. h ≡ held_copied copier.now false source.state base) }
{
    test_kind(copier, base.mbt_type())?;
    test_editable(base.mbt_type())?;
    copied(alloc, copier, false, source, base)
}

// Copies a source into a destination that is described, in one commit.
fn copy_over<D: TileStore>(
    alloc: Global,
    copier: &MbtilesCopier,
    source: Loaded,
    dst: &mut D,
) -> MbtResult<()>
    requires { IsSource source.state }
    ensures answer { IsBegun (over_answer copier.now source.state) (D.tells dst.old)
        (D.told dst.old) result }
    ensures copied { D.tells dst.old ≡ true
        → OnOk result (IsOver copier.now source.state (D.told dst.old) (D.told dst.new)) }
    ensures refused { OnErr result (D.told dst.new ≡ D.told dst.old) }
    ensures kept { Keeps D.tells D.faults D.steady dst.old dst.new }
    ensures fault { FaultsCounted D.faults dst.old dst.new result MbtError.StoreFault }
{
    let base = load(alloc, dst)?;
    let next = copied_over(alloc, copier, source, base)?;
    commit_loaded(alloc, dst, &next)?;
    Ok(())
}

// The set that is made for a source, with the source copied into it, or the first refusal.
fn copied_anew(alloc: Global, copier: &MbtilesCopier, source: Loaded) -> MbtResult<Loaded>
    requires { IsSource source.state }
    ensures tests { Tests (may_copy copier.now source.state (made_state copier.now source.state))
        result }
    ensures value { IfOk result
        (λ h. h ≡ held_copied copier.now true source.state
        (fresh (made_state copier.now source.state))) }
{
    let layout = made_type(copier, source.mbt_type());
    let algorithm = wanted_algorithm(copier, source.algorithm());
    let base = Loaded::empty(alloc, layout, algorithm);
    copied(alloc, copier, true, source, base)
}

// The same, or the refusal where another hash of all tiles was computed than the one that is expected, if one is.
fn copied_after(
    alloc: Global,
    copier: &MbtilesCopier,
    source: Loaded,
    after: Option<TextVal>,
) -> MbtResult<Loaded>
    requires { IsSource source.state }
    ensures tests { Tests (may_copy_anew copier.now after source.state) result }
    ensures value { IfOk result
        (λ h. h ≡ held_copied copier.now true source.state
        (fresh (made_state copier.now source.state))) }
{
    let next = copied_anew(alloc, copier, source)?;
    test_expected(alloc, copier, after, &next)?;
    Ok(next)
}

/// Copies a source, of which a hash of all tiles may be expected, into a destination that describes nothing: makes its
/// tables, and then all rows in one commit.
pub(crate) fn copy_anew<D: TileStore>(
    alloc: Global,
    copier: &MbtilesCopier,
    source: Loaded,
    after: Option<TextVal>,
    dst: &mut D,
) -> MbtResult<()>
    requires source { IsSource source.state }
    requires none { D.tells dst.old ≡ true → (D.told dst.old).descriptions ≡ [] }
    ensures answer { Answers (refused_by (may_copy_anew copier.now after source.state)) result }
    ensures copied { D.tells dst.old ≡ true
        → OnOk result (IsAnew copier.now source.state (D.told dst.old) (D.told dst.new)) }
    ensures left { D.tells dst.old ≡ true
        → IfErr result (IsLeft copier.now source.state (D.told dst.old) (D.told dst.new)) }
    ensures kept { Keeps D.tells D.faults D.steady dst.old dst.new }
    ensures fault { FaultsCounted D.faults dst.old dst.new result MbtError.StoreFault }
{
    let next = copied_after(alloc, copier, source, after)?;
    commit_anew(alloc, dst, &next)?;
    Ok(())
}

// Copies a source into a destination.
fn copy_into<D: TileStore>(
    alloc: Global,
    copier: &MbtilesCopier,
    source: Loaded,
    dst: &mut D,
) -> MbtResult<()>
    requires { IsSource source.state }
    ensures answer { IsPutInto copier.now source.state (D.tells dst.old) (D.told dst.old) result }
    ensures copied { D.tells dst.old ≡ true
        → OnOk result (IsCopied copier.now source.state (has_any (D.told dst.old).descriptions)
        (D.told dst.old) (D.told dst.new)) }
    ensures left { D.tells dst.old ≡ true
        → IfErr result (IsLeft copier.now source.state (D.told dst.old) (D.told dst.new)) }
    ensures kept { Keeps D.tells D.faults D.steady dst.old dst.new }
    ensures fault { FaultsCounted D.faults dst.old dst.new result MbtError.StoreFault }
{
    let is_empty = is_empty_database(alloc, dst)?;
    if is_empty {
        return copy_anew(alloc, copier, source, None, dst);
    }
    test_mode(copier)?;
    copy_over(alloc, copier, source, dst)
}

impl MbtilesCopier {
    /// Copies a set into a store: its tiles of the wanted zooms and boxes, and its metadata but for `hash_algorithm`,
    /// by the fields of the copier. What counts where the destination has a tile or a name too is its mode.
    ///
    /// A destination that describes nothing gets the tables of the wanted layout, with digests as ids in place of
    /// numbers, and the wanted algorithm; mode `Override` holds where none is given. Another one keeps its layout and
    /// its algorithm. Null is copied as null, but a normalised set then has no tile there. A cache gets the times of a
    /// cache, and null from other sets. Where tiles are copied, the hash of all tiles is computed and stored, unless
    /// `skip_agg_tiles_hash` says no; the destination's algorithm is stored where metadata or that hash is, and where
    /// the destination was made. Contents that no tile has any more stay.
    ///
    /// It answers the first of these that holds:
    ///
    /// 1. The refusals of loading the source; with `validate`, `AggHashValueNotFound` or `AggHashMismatch` where its
    ///    stored hash isn't there, or isn't the computed one.
    /// 2. `DestinationFileExists`: the destination describes something, and no mode is given.
    /// 3. The refusals of loading a destination that describes something.
    /// 4. `MismatchedTargetType`: it is of another kind than is asked for.
    /// 5. `UnsupportedCopyOperation`: its ids are numbers.
    /// 6. `DuplicateValues`, in mode `Abort`: a tile that is copied, null or not, or a name is there already.
    /// 7. `IdCollision`: contents that are put have the id of others in a normalised set, with the
    ///    id of the first such tile.
    ///
    /// The source is only read. Refused, the destination holds what it held; or only its tables were made, where
    /// memory ran out or the store failed. After Ok it loads again as the set with the copies, and all rows under
    /// other keys than those that were put are as before, in their order; the rows are one commit. A store that
    /// tells nothing is answered as is due of some tables. `StoreFault` comes only where the count of faults of
    /// one of the two stores rose, and at Ok both counts stand.
    pub fn run<S: TileStore, D: TileStore>(
        &self,
        alloc: Global,
        src: &mut S,
        dst: &mut D,
    ) -> MbtResult<()>
        ensures answer { IsAnswered self.now (S.tells src.old) (S.told src.old) (D.tells dst.old)
            (D.told dst.old) result }
        ensures copied { D.tells dst.old ≡ true
            → OnOk result (IsCopiedBy self.now (S.tells src.old) (S.told src.old) (D.told dst.old)
            (D.told dst.new)) }
        ensures left { D.tells dst.old ≡ true
            → IfErr result (IsLeftBy self.now (S.tells src.old) (S.told src.old) (D.told dst.old)
            (D.told dst.new)) }
        ensures source_kept { ReadsOnly S.told S.tells S.faults S.steady src.old src.new }
        ensures kept { Keeps D.tells D.faults D.steady dst.old dst.new }
        ensures fault { IsErrOf result MbtError.StoreFault
            → Rose (S.faults src.old) (S.faults src.new)
            ⊎ Rose (D.faults dst.old) (D.faults dst.new) }
        ensures source_still { OnOk result (S.faults src.new ≡ S.faults src.old) }
        ensures still { OnOk result (D.faults dst.new ≡ D.faults dst.old) }
    {
        let source = load(alloc, src)?;
        test_valid(alloc, self.validate, &source)?;
        copy_into(alloc, self, source, dst)
    }
}
