// What the tests of loading find in rows of contents and of tiles, page by page.
ghost use Rattle.std.specs.Prelude.{◌≡◌, ◌&&◌, ◌++◌, IfOk, List, OnOk, Option, [], map};
ghost use Rattle.tile_streaming.specs.Common.{AreIndexed, Cell, content_from, first_refused, has_tile_kinds, HashAlgorithm, is_id, list_all, MbtError, MbtType, missing_reference, option_or};
ghost use Rattle.tile_streaming.specs.Common.{rows_kept, Tests, tile_bad, wrong_id, wrong_tile_hash};
ghost use Rattle.tile_streaming.specs.Contents.{Knows};
ghost use Rattle.tile_streaming.specs.RowTests.{AreFindings, settled, unless_found};

use crate::contents::Known;
use crate::names::Named;
use base_values::OutOfMemory;
use mb_constraints::{test_content_hashes, test_references, test_tile_hashes, test_tiles};
use mb_lists::{Content, ContentList, have_id_kinds, have_tile_kinds};
use mb_store::{MbtError, MbtResult, MbtType, Row};
use std::alloc::Global;
use tile_hash::HashAlgorithm;

/// What was found in rows: whether all cells are of their kinds, and the refusals of the first bad row, of the first
/// whose contents aren't there, and of the first wrong digest.
#[derive(Debug, Drop)]
pub(crate) struct Findings {
    pub kinds: bool,
    pub bad: Option<MbtError>,
    pub missing: Option<MbtError>,
    pub hash: Option<MbtError>,
}

// The refusal of a test, if there is one.
fn refusal_of(tested: MbtResult<()>) -> Result<Option<MbtError>, OutOfMemory>
    ensures { (due : Option MbtError) → Tests due tested
        → IfOk result (λ found. found ≡ due) }
{
    match tested {
        Ok(()) => Ok(None),
        Err(MbtError::OutOfMemory) => Err(OutOfMemory),
        Err(refusal) => Ok(Some(refusal)),
    }
}

// The first refusal of three findings, if there is one.
fn first_of(
    bad: Option<MbtError>,
    missing: Option<MbtError>,
    hash: Option<MbtError>,
) -> Option<MbtError>
    ensures { result ≡ option_or bad (option_or missing hash) }
{
    bad.or(missing.or(hash))
}

// What metadata names, or the refusal that was found.
fn unless_found(found: Option<MbtError>, named: Named) -> MbtResult<Named>
    ensures { result ≡ unless_found found named }
{
    match found {
        Some(refusal) => Err(refusal),
        None => Ok(named),
    }
}

// The refusal of the first bad row, if there is one.
fn first_bad(
    alloc: Global,
    layout: MbtType,
    contents: &ContentList,
    rows: &[Row],
) -> Result<Option<MbtError>, OutOfMemory>
    requires { AreIndexed contents.now.items.items contents.now.live contents.now.order.items }
    ensures { IfOk result
        (λ found. found ≡ tile_bad layout (rows_kept contents.now.items.items) rows.now) }
{
    refusal_of(test_tiles(alloc, layout, contents, rows))
}

// The refusal of the first row whose contents aren't there, if there is one.
fn first_missing(
    alloc: Global,
    layout: MbtType,
    contents: &ContentList,
    rows: &[Row],
) -> Result<Option<MbtError>, OutOfMemory>
    requires { AreIndexed contents.now.items.items contents.now.live contents.now.order.items }
    ensures { IfOk result (λ found. found ≡ first_refused
        (missing_reference layout (rows_kept contents.now.items.items)) rows.now) }
{
    refusal_of(test_references(alloc, layout, contents, rows))
}

// The refusal of the first wrong digest, if there is one.
fn first_wrong(
    alloc: Global,
    layout: MbtType,
    algorithm: HashAlgorithm,
    rows: &[Row],
) -> Result<Option<MbtError>, OutOfMemory>
    ensures { IfOk result
        (λ found. found ≡ first_refused (wrong_tile_hash layout algorithm) rows.now) }
{
    refusal_of(test_tile_hashes(alloc, layout, algorithm, rows))
}

// The refusal of the first wrong digest of contents, if there is one.
fn first_wrong_id(
    alloc: Global,
    layout: MbtType,
    algorithm: HashAlgorithm,
    contents: &[Content],
) -> Result<Option<MbtError>, OutOfMemory>
    ensures { IfOk result
        (λ found. found ≡ first_refused (wrong_id layout algorithm) contents.now) }
{
    refusal_of(test_content_hashes(alloc, layout, algorithm, contents))
}

impl Findings {
    /// What is found in no rows.
    pub fn none() -> Findings
        ensures { (layout : MbtType) (a : HashAlgorithm) → AreFindings layout a [] [] result }
    {
        Findings {
            kinds: true,
            bad: None,
            missing: None,
            hash: None,
        }
    }

    // Looks whether the ids of more contents are of their kinds.
    fn see_id_kinds(&mut self, layout: MbtType, contents: &[Content])
        ensures kinds { self.new.kinds ≡ (self.old.kinds
            && list_all (λ c. is_id layout c.id) contents.now) }
        ensures bad { self.new.bad ≡ self.old.bad }
        ensures missing { self.new.missing ≡ self.old.missing }
        ensures hash { self.new.hash ≡ self.old.hash }
    {
        self.kinds = self.kinds && have_id_kinds(layout, contents);
    }

    // Looks for a wrong digest of more contents, unless one was found.
    fn see_ids(
        &mut self,
        alloc: Global,
        layout: MbtType,
        algorithm: HashAlgorithm,
        contents: &[Content],
    ) -> Result<(), OutOfMemory>
        ensures hash { OnOk result (self.new.hash ≡ option_or self.old.hash
            (first_refused (wrong_id layout algorithm) contents.now)) }
        ensures kinds { self.new.kinds ≡ self.old.kinds }
        ensures bad { self.new.bad ≡ self.old.bad }
        ensures missing { self.new.missing ≡ self.old.missing }
    {
        if self.hash.is_none() {
            self.hash = first_wrong_id(alloc, layout, algorithm, contents)?;
        }
        Ok(())
    }

    /// Takes what is found in more contents, before any row of a tile.
    pub fn see_contents(
        &mut self,
        alloc: Global,
        layout: MbtType,
        algorithm: HashAlgorithm,
        contents: &[Content],
    ) -> Result<(), OutOfMemory>
        ensures { (rows page : List (List Cell)) → contents.now ≡ map content_from page
            → AreFindings layout algorithm rows [] self.old
            → OnOk result (AreFindings layout algorithm (rows ++ page) [] self.new) }
    {
        self.see_id_kinds(layout, contents);
        self.see_ids(alloc, layout, algorithm, contents)
    }

    // Looks whether the cells of more rows are of their kinds.
    fn see_kinds(&mut self, layout: MbtType, page: &[Row])
        ensures kinds { self.new.kinds ≡ (self.old.kinds
            && list_all (has_tile_kinds layout) page.now) }
        ensures bad { self.new.bad ≡ self.old.bad }
        ensures missing { self.new.missing ≡ self.old.missing }
        ensures hash { self.new.hash ≡ self.old.hash }
    {
        self.kinds = self.kinds && have_tile_kinds(layout, page);
    }

    // Looks for a bad row in more rows, unless one was found.
    fn see_bad(
        &mut self,
        alloc: Global,
        layout: MbtType,
        contents: &ContentList,
        page: &[Row],
    ) -> Result<(), OutOfMemory>
        requires { AreIndexed contents.now.items.items contents.now.live contents.now.order.items }
        ensures bad { OnOk result (self.new.bad ≡ option_or self.old.bad
            (tile_bad layout (rows_kept contents.now.items.items) page.now)) }
        ensures kinds { self.new.kinds ≡ self.old.kinds }
        ensures missing { self.new.missing ≡ self.old.missing }
        ensures hash { self.new.hash ≡ self.old.hash }
    {
        if self.bad.is_none() {
            self.bad = first_bad(alloc, layout, contents, page)?;
        }
        Ok(())
    }

    // Looks for a row whose contents aren't there in more rows, unless one was found.
    fn see_missing(
        &mut self,
        alloc: Global,
        layout: MbtType,
        contents: &ContentList,
        page: &[Row],
    ) -> Result<(), OutOfMemory>
        requires { AreIndexed contents.now.items.items contents.now.live contents.now.order.items }
        ensures missing { OnOk result (self.new.missing ≡ option_or self.old.missing
            (first_refused (missing_reference layout (rows_kept contents.now.items.items))
            page.now)) }
        ensures kinds { self.new.kinds ≡ self.old.kinds }
        ensures bad { self.new.bad ≡ self.old.bad }
        ensures hash { self.new.hash ≡ self.old.hash }
    {
        if self.missing.is_none() {
            self.missing = first_missing(alloc, layout, contents, page)?;
        }
        Ok(())
    }

    // Looks for a wrong digest in more rows, unless one was found.
    fn see_hash(
        &mut self,
        alloc: Global,
        layout: MbtType,
        algorithm: HashAlgorithm,
        page: &[Row],
    ) -> Result<(), OutOfMemory>
        ensures hash { OnOk result (self.new.hash ≡ option_or self.old.hash
            (first_refused (wrong_tile_hash layout algorithm) page.now)) }
        ensures kinds { self.new.kinds ≡ self.old.kinds }
        ensures bad { self.new.bad ≡ self.old.bad }
        ensures missing { self.new.missing ≡ self.old.missing }
    {
        if self.hash.is_none() {
            self.hash = first_wrong(alloc, layout, algorithm, page)?;
        }
        Ok(())
    }

    /// Takes what is found in more rows.
    pub fn see(
        &mut self,
        alloc: Global,
        layout: MbtType,
        algorithm: HashAlgorithm,
        known: &Known,
        page: &[Row],
    ) -> Result<(), OutOfMemory>
        requires { AreIndexed known.now.list.items.items known.now.list.live
            known.now.list.order.items }
        ensures { (contents rows : List (List Cell)) → Knows contents known.now
            → AreFindings layout algorithm contents rows self.old → OnOk result
            (AreFindings layout algorithm contents (rows ++ page.now) self.new) }
    {
        self.see_kinds(layout, page);
        self.see_bad(alloc, layout, &known.list, page)?;
        self.see_missing(alloc, layout, &known.list, page)?;
        self.see_hash(alloc, layout, algorithm, page)
    }

    /// What metadata names, or the first refusal, in this order: of the kinds of cells, of the metadata, of a bad row,
    /// of contents that aren't there, of a digest.
    pub fn settle(self, named: MbtResult<Named>) -> MbtResult<Named>
        ensures { result ≡ settled self named }
    {
        let Findings {
            kinds,
            bad,
            missing,
            hash,
        } = self;
        let found = first_of(bad, missing, hash);
        if !kinds {
            return Err(MbtError::InvalidDataFormat);
        }
        unless_found(found, named?)
    }
}
