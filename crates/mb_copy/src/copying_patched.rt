// Copying one store into another with a patch.
ghost use Rattle.std.specs.Prelude.{◌≡◌, ◌⊎◌, [], IfErr, IsErrOf, OnOk, false, true};
ghost use Rattle.mb_copy.specs.Common.{AllOnBoard, Answers, FaultsCounted, Keeps, ReadsOnly, refused_by, Rose};
ghost use Rattle.mb_copy.specs.Clearing.{IsSource};
ghost use Rattle.mb_copy.specs.Copying.{IsLeft, IsLeftBy};
ghost use Rattle.mb_copy.specs.CopyingPatched.{IsAnsweredPatched, IsCopiedPatched, IsCopiedPatchedBy, IsPutPatched};
ghost use Rattle.mb_copy.specs.PatchOrder.{may_copy_patched};

use crate::MbtilesCopier;
use crate::copying::copy_anew;
use crate::patch_order::{expected_hash, test_patch, test_source};
use crate::patched_source::patched_source;
use mb_load::load;
use mb_loaded::Loaded;
use mb_store::{MbtError, MbtResult, TileStore, is_empty_database};
use std::alloc::Global;

// Copies a source with a patch into a destination that describes nothing.
fn copy_patched_anew<D: TileStore>(
    alloc: Global,
    copier: &MbtilesCopier,
    source: Loaded,
    patch: &Loaded,
    dst: &mut D,
) -> MbtResult<()>
    requires source { IsSource source.state }
    requires patch { AllOnBoard patch.now.state }
    requires none { D.tells dst.old ≡ true → (D.told dst.old).descriptions ≡ [] }
    ensures answer { Answers
        (refused_by (may_copy_patched copier.now false source.state patch.now.state)) result }
    ensures copied { D.tells dst.old ≡ true
        → OnOk result (IsCopiedPatched copier.now source.state patch.now.state (D.told dst.old)
        (D.told dst.new)) }
    ensures left { D.tells dst.old ≡ true
        → IfErr result (IsLeft copier.now source.state (D.told dst.old) (D.told dst.new)) }
    ensures kept { Keeps D.tells D.faults D.steady dst.old dst.new }
    ensures fault { FaultsCounted D.faults dst.old dst.new result MbtError.StoreFault }
{
    let after = expected_hash(alloc, copier, patch)?;
    let patched = patched_source(alloc, source, patch)?;
    copy_anew(alloc, copier, patched, after, dst)
}

// Copies a source with a patch into a destination.
fn copy_patched<D: TileStore>(
    alloc: Global,
    copier: &MbtilesCopier,
    source: Loaded,
    patch: &Loaded,
    dst: &mut D,
) -> MbtResult<()>
    requires source { IsSource source.state }
    requires patch { AllOnBoard patch.now.state }
    ensures answer { IsPutPatched copier.now source.state patch.now.state (D.tells dst.old)
        (D.told dst.old) result }
    ensures copied { D.tells dst.old ≡ true
        → OnOk result (IsCopiedPatched copier.now source.state patch.now.state (D.told dst.old)
        (D.told dst.new)) }
    ensures left { D.tells dst.old ≡ true
        → IfErr result (IsLeft copier.now source.state (D.told dst.old) (D.told dst.new)) }
    ensures kept { Keeps D.tells D.faults D.steady dst.old dst.new }
    ensures fault { FaultsCounted D.faults dst.old dst.new result MbtError.StoreFault }
{
    let is_empty = is_empty_database(alloc, dst)?;
    if is_empty {
        return copy_patched_anew(alloc, copier, source, patch, dst);
    }
    Err(MbtError::NonEmptyTargetFile)
}

impl MbtilesCopier {
    /// Copies a set with a patch into a store that describes nothing: of the tiles and the metadata that the
    /// patch makes of those of the source, what the fields of the copier say. A tile has the bytes of the patch
    /// where that has bytes, and is gone where that has null; each name has the text of the patch, and is gone
    /// where the patch has null. Only then are tiles chosen, so that one that the patch removes isn't copied. The
    /// hashes of all tiles, of the source and of before and after the patch, aren't copied; that of the copy is
    /// computed and stored as by `run`.
    ///
    /// The destination gets the tables of the wanted layout, and the wanted algorithm, as by `run`. The
    /// algorithm of the patch isn't compared with that of the source, nor the hash that it says the source has
    /// with that of the source.
    ///
    /// It answers the first of these that holds:
    ///
    /// 1. The refusals of loading the patch; with `validate`, `AggHashValueNotFound` or `AggHashMismatch` where its
    ///    stored hash isn't there, or isn't the computed one.
    /// 2. `UnsupportedPatchType`: the patch describes a table of binary differences.
    /// 3. `PatchFileHasNoHashes`, `PatchFileHasNoBeforeHash`: the patch has no hash of all tiles after it, or that one
    ///    alone; not with `force`.
    /// 4. The refusals of loading the source, and with `validate` those of its stored hash.
    /// 5. `CannotDiffFileWithoutHash`, `DiffingDiffFile`: the source has no hash of all tiles, or is itself a
    ///    patch; not with `force`.
    /// 6. `UnsupportedCopyOperation`: a cache is wanted, or a layout whose ids are numbers.
    /// 7. `NonEmptyTargetFile`: the destination describes something.
    /// 8. `IdCollision`: contents that are put have the id of others in a normalised set, with the
    ///    id of the first such tile.
    /// 9. `AggHashMismatchAfterApply`: the hash that the patch says isn't the computed one, where that is stored, with
    ///    both hashes; not with `force`.
    ///
    /// The source and the patch are only read. Refused, the destination holds what it held; or only its tables were
    /// made, where memory ran out or the store failed. After Ok it loads again as the copy; the rows are one commit. A
    /// store that tells nothing is answered as is due of some tables. `StoreFault` comes only where the count of faults
    /// of one of the three stores rose, and at Ok all three counts stand.
    pub fn run_with_patch<S: TileStore, D: TileStore, P: TileStore>(
        &self,
        alloc: Global,
        src: &mut S,
        dst: &mut D,
        patch: &mut P,
    ) -> MbtResult<()>
        ensures answer { IsAnsweredPatched self.now (P.tells patch.old) (P.told patch.old)
            (S.tells src.old) (S.told src.old) (D.tells dst.old) (D.told dst.old) result }
        ensures copied { D.tells dst.old ≡ true
            → OnOk result (IsCopiedPatchedBy self.now (P.tells patch.old) (P.told patch.old)
            (S.tells src.old) (S.told src.old) (D.told dst.old) (D.told dst.new)) }
        ensures left { D.tells dst.old ≡ true
            → IfErr result (IsLeftBy self.now (S.tells src.old) (S.told src.old) (D.told dst.old)
            (D.told dst.new)) }
        ensures source_kept { ReadsOnly S.told S.tells S.faults S.steady src.old src.new }
        ensures patch_kept { ReadsOnly P.told P.tells P.faults P.steady patch.old patch.new }
        ensures kept { Keeps D.tells D.faults D.steady dst.old dst.new }
        ensures fault { IsErrOf result MbtError.StoreFault
            → Rose (S.faults src.old) (S.faults src.new)
            ⊎ (Rose (D.faults dst.old) (D.faults dst.new)
            ⊎ Rose (P.faults patch.old) (P.faults patch.new)) }
        ensures source_still { OnOk result (S.faults src.new ≡ S.faults src.old) }
        ensures patch_still { OnOk result (P.faults patch.new ≡ P.faults patch.old) }
        ensures still { OnOk result (D.faults dst.new ≡ D.faults dst.old) }
    {
        let other = load(alloc, patch)?;
        test_patch(alloc, self, &other)?;
        let source = load(alloc, src)?;
        test_source(alloc, self, &source)?;
        copy_patched(alloc, self, source, &other, dst)
    }
}
