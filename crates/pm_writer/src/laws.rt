// Laws of archives: facts about their definitions, as contracts of functions that do nothing.
ghost use Rattle.std.specs.Prelude.{◌≡◌, ◌≢◌, ◌<◌, ◌≤◌, ◌+◌, ◌^◌, ℕ, true, List, [], ◌∷◌, ◌++◌, All, length, map, get_or, take, sum_by, slice_index, MatchOption, Ok, OnOk, IfOk, Err, false, Some, None};
ghost use Rattle.std.specs.List.{range_with_len};
ghost use Rattle.pm_writer.specs.Common.{AllAtMost, archive_map, archive_tile, below_root, Compression, ConsistsOf, data_of, data_part, dir_bytes, DirFits, entries, Entry, find, FinMap, from_entries};
ghost use Rattle.pm_writer.specs.Common.{get, header_of, hops, is_sorted, MAX_TILE_ID, nat_cmp, opened, Options, PmtError, root_of, scan, WellFormed};
ghost use Rattle.pm_format.specs.declared.compression.Compression.TheVariants as compression;
ghost use Rattle.pm_writer.specs.Adds.{entries_of_adds, longest_run, unsorted};
ghost use Rattle.pm_writer.specs.Archivable.{IsArchivable};
ghost use Rattle.pm_writer.specs.Archive.{archive, canon, ids_of, parts_of, rising, tile_in};
ghost use Rattle.pm_writer.specs.Bounds.{AllLow, AllShort, AllSized, OptionsFit};
ghost use Rattle.pm_writer.specs.Causes.{AddCauses, ArchiveFits, CreateCauses, FinishCauses};
ghost use Rattle.pm_writer.specs.Few.{AreFew};
ghost use Rattle.pm_writer.specs.Growing.{Separates, put, put_run, with_run};
ghost use Rattle.pm_writer.specs.Leaves.{laid, pieces};
ghost use Rattle.pm_writer.specs.Maps.{Covers, Gives, IsIn, RisingAdds, Tiles};
ghost use Rattle.pm_writer.specs.Pieces.{IsHidden, IsHiddenOr, PutCauses};
ghost use Rattle.pm_writer.specs.Places.{places_of, places_read};
ghost use Rattle.pm_writer.specs.Through.{Rising, Through};
ghost use Rattle.pm_writer.specs.TileEntries.{entries_read};
ghost use Rattle.pm_writer.specs.Twice.{Distinct, adds_at, times};
ghost use Rattle.pm_writer.specs.Writing.{AddFits, add_run_to};

use pm_format::MAX_ROOT;

/// One more add grows the last entry, or is an entry of its own.
pub fn one_more_add()
    ensures { (place : List ℕ → ℕ) (adds : List (ℕ × List ℕ)) (a : ℕ × List ℕ)
        → Separates place adds a
        → unsorted place (adds ++ a ∷ [])
        ≡ put longest_run a.0 (place a.1) (length a.1) (unsorted place adds) }
{}

/// A run of adds grows the last entry until it is full, and one entry more has what is left of it: so do its ids, added
/// one after another.
pub fn run_of_adds()
    ensures entries { (place : List ℕ → ℕ) (adds : List (ℕ × List ℕ)) (id n : ℕ) (bytes : List ℕ)
        → Separates place adds (id, bytes) → 0 < n → n ≤ longest_run
        → unsorted place (with_run adds id n bytes)
        ≡ put_run longest_run id (place bytes) (length bytes) n (unsorted place adds) }
    ensures turns { (adds : List (ℕ × List ℕ)) (id n : ℕ) (bytes : List ℕ)
        → with_run adds id n bytes ≡ adds ++ map (λ i. (i, bytes)) (range_with_len id n) }
    ensures adds { (adds : List (ℕ × List ℕ)) (id n : ℕ) (bytes : List ℕ) → 0 < length bytes
        → add_run_to adds id n bytes ≡ adds ++ map (λ i. (i, bytes)) (range_with_len id n) }
{}

/// As many entries cover an id as adds are at it.
pub fn times_of_adds()
    ensures { (place : List ℕ → ℕ) (adds : List (ℕ × List ℕ)) (t : ℕ)
        → times (unsorted place adds) t ≡ adds_at adds t }
{}

/// A look-up by the entries that name directories, and one of these, answers as one in a flat directory.
pub fn leaves_answer_as_one()
    ensures { (es : List Entry) (place size t : ℕ) → 1 ≤ size → Rising es
        → Through place (root_of place (pieces size es)) (pieces size es) es t }
{}

/// The search for a size of upper directories ends with a root that fits.
pub fn every_root_fits()
    ensures { (es : List Entry) (size : ℕ) → 5 ≤ size
        → length (dir_bytes (laid size es).root) ≤ MAX_ROOT }
{}

/// Every directory is below 2^32 bytes, and no directory of tile entries below the root has more
/// entries than the options say.
pub fn directories_are_bounded()
    ensures bytes { (o : Options) (adds : List (ℕ × List ℕ)) → IsArchivable o adds
        → AllShort ((parts_of o adds).root ∷ below_root (parts_of o adds)) }
    ensures entries { (o : Options) (adds : List (ℕ × List ℕ)) → IsArchivable o adds
        → AllAtMost o.max_leaf_entries (parts_of o adds).leaves }
{}

/// The tile entries that the bytes of an archive have, in its root and in the directories that this leads to, are the
/// entries of its adds, as many as its header says.
pub fn entries_are_read()
    ensures entries { (o : Options) (adds : List (ℕ × List ℕ)) → IsArchivable o adds
        → entries_read (archive o adds) ≡ entries_of_adds adds }
    ensures count { (o : Options) (adds : List (ℕ × List ℕ)) → IsArchivable o adds
        → IfOk (opened (archive o adds))
        (λ found. found.0.n_tile_entries ≡ length (entries_read (archive o adds))) }
{}

/// No tile entry of any list for the same tiles covers the first ids of two tile entries of the archive's bytes: a list
/// of tile entries whose ids strictly rise, whose runs are from 1 to 4,294,967,295 and don't overlap, and which gives
/// these tiles and no others over some data, whatever the data is.
pub fn least_entries()
    ensures { (o : Options) (adds : List (ℕ × List ℕ)) (fs : List Entry) (bytes : List ℕ)
        → IsArchivable o adds → RisingAdds adds → Tiles fs → Gives fs bytes (tile_in adds)
        → (f d e : Entry) → IsIn f fs → IsIn d (entries_read (archive o adds))
        → IsIn e (entries_read (archive o adds)) → Covers f d.tile_id → Covers f e.tile_id
        → d.tile_id ≡ e.tile_id }
{}

/// So any such list has at least as many entries as the archive's bytes.
pub fn no_fewer()
    ensures { (o : Options) (adds : List (ℕ × List ℕ)) (fs : List Entry) (bytes : List ℕ)
        → IsArchivable o adds → RisingAdds adds → Tiles fs → Gives fs bytes (tile_in adds)
        → length (entries_read (archive o adds)) ≤ length fs }
{}

/// Equal tiles and equal options give equal bytes.
pub fn one_archive()
    ensures { (o : Options) (xs ys : List (ℕ × List ℕ)) → RisingAdds xs → RisingAdds ys
        → ((t : ℕ) → tile_in xs t ≡ tile_in ys t) → archive o xs ≡ archive o ys }
{}

/// Finite maps that answer alike have one archive, and the archive of adds by strictly rising id is that of each map
/// that has them. It has exactly the tiles of its map, which therefore determine it.
pub fn archive_is_canonical()
    ensures entries { (adds : List (ℕ × List ℕ)) → is_sorted nat_cmp adds ≡ true
        → entries (from_entries {R = nat_cmp} adds) ≡ adds }
    ensures maps { (o : Options) (m n : FinMap nat_cmp (List ℕ)) → ((id : ℕ) → get m id ≡ get n id)
        → canon o m ≡ canon o n }
    ensures adds { (o : Options) (adds : List (ℕ × List ℕ)) (m : FinMap nat_cmp (List ℕ))
        → is_sorted nat_cmp adds ≡ true → ((id : ℕ) → get m id ≡ find nat_cmp id adds)
        → archive o adds ≡ canon o m }
    ensures tiles { (o : Options) (m : FinMap nat_cmp (List ℕ)) (id : ℕ)
        → IsArchivable o (entries m) → archive_map (canon o m) id ≡ get m id }
    ensures again { (o : Options) (m n : FinMap nat_cmp (List ℕ)) → IsArchivable o (entries m)
        → ((id : ℕ) → get n id ≡ archive_map (canon o m) id) → canon o n ≡ canon o m }
{}

/// The entries fit a directory, by bounds on the adds alone.
pub fn entries_fit()
    ensures { (o : Options) (adds : List (ℕ × List ℕ)) → Distinct adds → AllLow adds
        → AllSized adds → length (data_part (parts_of o adds)) + 1 < 2 ^ 64
        → DirFits 0 (entries_of_adds adds) × (length (entries_of_adds adds) < 2 ^ 64) }
{}

/// As many tiles are addressed by the entries as there are adds.
pub fn runs_count_adds()
    ensures { (adds : List (ℕ × List ℕ))
        → sum_by (λ e. e.run_length) (entries_of_adds adds) ≡ length adds }
{}

/// The archive of adds is well formed, where it can be written: its parts are the entries and contents of the adds, and
/// it is clustered exactly where the ids of the adds rise.
pub fn archive_is_well_formed()
    ensures parts { (o : Options) (adds : List (ℕ × List ℕ)) → IsArchivable o adds
        → ConsistsOf (archive o adds) o (rising (ids_of adds)) (parts_of o adds) }
    ensures formed { (o : Options) (adds : List (ℕ × List ℕ)) → IsArchivable o adds
        → WellFormed (archive o adds) o (rising (ids_of adds)) }
{}

/// Opening it finds its header and its root.
pub fn archive_opens()
    ensures { (o : Options) (adds : List (ℕ × List ℕ)) → IsArchivable o adds
        → opened (archive o adds)
        ≡ Ok (header_of o (rising (ids_of adds)) (parts_of o adds), (parts_of o adds).root) }
{}

/// Read by its root and what this leads to, it gives exactly the adds.
pub fn archive_gives_adds()
    ensures tile { (o : Options) (adds : List (ℕ × List ℕ)) (t : ℕ) → IsArchivable o adds
        → archive_tile (archive o adds) t ≡ Ok (tile_in adds t) }
    ensures tiles { (o : Options) (adds : List (ℕ × List ℕ)) (t : ℕ) → IsArchivable o adds
        → archive_map (archive o adds) t ≡ tile_in adds t }
{}

/// A look-up in it answers as one in the flat list of all entries, and reads two directories below the root at most.
pub fn two_leaves_at_most()
    ensures flat { (o : Options) (adds : List (ℕ × List ℕ)) (t : ℕ) → IsArchivable o adds
        → MatchOption (scan (entries_of_adds adds) t) (archive_tile (archive o adds) t ≡ Ok None)
        (λ e. archive_tile (archive o adds) t
        ≡ data_of (header_of o (rising (ids_of adds)) (parts_of o adds)) (archive o adds) e) }
    ensures hops { (o : Options) (adds : List (ℕ × List ℕ)) (t : ℕ) → IsArchivable o adds
        → hops (archive o adds) t ≤ 2 }
{}

/// Few and short adds are neither refused by `IndexEntryOverflow` when they are added, each behind those before it, nor
/// when the archive is finished.
pub fn few_adds_fit()
    ensures archive { (o : Options) (adds : List (ℕ × List ℕ)) → OptionsFit o → AreFew o adds
        → ArchiveFits o adds }
    ensures adds { (o : Options) (before after : List (ℕ × List ℕ)) (id : ℕ) (bytes : List ℕ)
        → AreFew o (before ++ (id, bytes) ∷ after) → AddFits o before id bytes }
    ensures turns { (o : Options) (adds : List (ℕ × List ℕ)) (i : ℕ) (d : ℕ × List ℕ)
        → i < length adds → AreFew o adds
        → AddFits o (take i adds) (get_or adds i d).0 (get_or adds i d).1 }
{}

/// Adds by strictly rising id, as the entries of a finite map are: no id is twice, the archive is clustered, and it
/// gives what is found among the adds.
pub fn rising_adds_are_distinct()
    ensures distinct { (adds : List (ℕ × List ℕ)) → is_sorted nat_cmp adds ≡ true → Distinct adds }
    ensures clustered { (adds : List (ℕ × List ℕ)) → is_sorted nat_cmp adds ≡ true
        → rising (ids_of adds) ≡ true }
    ensures pairs { (adds : List (ℕ × List ℕ)) → is_sorted nat_cmp adds ≡ true
        → All (λ a. a.0 ≤ MAX_TILE_ID) adds → All (λ a. a.1 ≢ []) adds → RisingAdds adds }
    ensures archivable { (o : Options) (adds : List (ℕ × List ℕ)) → OptionsFit o → AreFew o adds
        → is_sorted nat_cmp adds ≡ true → All (λ a. a.0 ≤ MAX_TILE_ID) adds
        → All (λ a. a.1 ≢ []) adds → IsArchivable o adds }
    ensures tiles { (o : Options) (adds : List (ℕ × List ℕ)) (t : ℕ) → IsArchivable o adds
        → archive_map (archive o adds) t ≡ find nat_cmp t adds }
    ensures formed { (o : Options) (adds : List (ℕ × List ℕ)) → IsArchivable o adds
        → is_sorted nat_cmp adds ≡ true → WellFormed (archive o adds) o true }
{}

/// Bytes open only where byte 97, the label of directories, is 1. So hidden bytes don't, and of bytes that are hidden
/// or a whole archive only the archive does.
pub fn only_labelled_bytes_open()
    ensures label { (b : List ℕ) → OnOk (opened b) (slice_index b 97 ≡ 1) }
    ensures hidden { (b : List ℕ) → IsHidden b → OnOk (opened b) ⊥ }
    ensures whole { (whole b : List ℕ) → IsHiddenOr whole b → OnOk (opened b) (b ≡ whole) }
{}

/// What its header, its directories and its length say of an archive of adds are its places.
pub fn places_are_read()
    ensures { (o : Options) (adds : List (ℕ × List ℕ)) → IsArchivable o adds
        → places_read (archive o adds) ≡ Some (places_of o adds) }
{}

/// What fits is refused by a fault of the medium, whose count of faults then rose, and by running out of memory alone:
/// the beginning of a writer whose directories are labelled `None`, an add that fits to a writer that didn't fail, and
/// the end of an archive of distinct ids that fits.
pub fn only_faults_refuse_what_fits()
    ensures start { (label : Compression) (before now : ℕ) (e : PmtError)
        → label ≡ compression.None → CreateCauses {A = Unit {0}} label before now (Err e)
        → PutCauses before now (Err e) }
    ensures add { (o : Options) (adds : List (ℕ × List ℕ)) (id : ℕ) (bytes : List ℕ)
        (label : Compression) (before now : ℕ) (e : PmtError) → label ≡ compression.None
        → AddFits o adds id bytes
        → AddCauses label false (length bytes) (AddFits o adds id bytes) before now (Err e)
        → PutCauses before now (Err e) }
    ensures finish { (o : Options) (adds : List (ℕ × List ℕ)) (before now : ℕ) (e : PmtError)
        → Distinct adds → ArchiveFits o adds
        → FinishCauses {A = Unit {0}} o adds false before now (Err e)
        → PutCauses before now (Err e) }
{}
