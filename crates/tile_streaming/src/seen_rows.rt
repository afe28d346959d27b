// What rows of tiles come to, page by page: what their tests find, and their marks.
ghost use Rattle.std.specs.Prelude.{◌≡◌, ◌≢◌, ◌++◌, false, [], None, IfErr, IfOk, List, OnOk};
ghost use Rattle.tile_streaming.specs.Common.{AreIndexed, Cell, HashAlgorithm, id_twice, MbtType, Tests};
ghost use Rattle.tile_streaming.specs.Contents.{Knows};
ghost use Rattle.tile_streaming.specs.RowTests.{AreFindings, IsNamedBy, names_refused};
ghost use Rattle.tile_streaming.specs.Seen.{AreMarked, SeesRows};

use crate::contents::Known;
use crate::mark::{Mark, MarkedSet};
use crate::names::Named;
use crate::ordering::in_order;
use crate::row_marks::add_marks;
use crate::row_tests::Findings;
use base_values::OutOfMemory;
use mb_store::{MbtError, MbtResult, MbtType, Row};
use std::alloc::Global;
use tile_hash::HashAlgorithm;

/// What the tests find in rows, and the marks of those that are tiles, in their order.
#[derive(Debug, Drop)]
pub(crate) struct SeenRows {
    pub findings: Findings,
    pub marks: Vec<Mark>,
}

impl SeenRows {
    /// No rows, behind what was found in contents.
    pub fn behind(alloc: Global, findings: Findings) -> SeenRows
        ensures { (layout : MbtType) (a : HashAlgorithm) (contents : List (List Cell))
            → AreFindings layout a contents [] findings → SeesRows layout a contents [] result }
    {
        SeenRows {
            findings,
            marks: Vec::new(alloc),
        }
    }

    /// Takes more rows.
    pub fn see(
        &mut self,
        alloc: Global,
        layout: MbtType,
        algorithm: HashAlgorithm,
        known: &Known,
        page: &[Row],
    ) -> Result<(), OutOfMemory>
        requires { AreIndexed known.now.list.items.items known.now.list.live
            known.now.list.order.items }
        ensures { (contents rows : List (List Cell)) → Knows contents known.now
            → SeesRows layout algorithm contents rows self.old
            → OnOk result (SeesRows layout algorithm contents (rows ++ page.now) self.new) }
    {
        self.findings.see(alloc, layout, algorithm, known, page)?;
        add_marks(&mut self.marks, layout, known, page)
    }

    /// The marked set of all rows, or the first refusal of the tests over these and over metadata (`named`).
    pub fn settle(self, layout: MbtType, named: MbtResult<Named>) -> MbtResult<MarkedSet>
        ensures marked { (metadata contents rows : List (List Cell)) (a : HashAlgorithm)
            → id_twice contents ≡ None → SeesRows layout a contents rows self
            → Tests (names_refused metadata) named
            → IfOk named (IsNamedBy metadata) → IfOk named (λ x. a ≡ x.algorithm)
            → AreMarked layout metadata contents rows result }
        ensures unfaulted { (metadata contents rows : List (List Cell)) (a : HashAlgorithm)
            → SeesRows layout a contents rows self → Tests (names_refused metadata) named
            → IfErr result (λ e. e ≢ MbtError.StoreFault) }
    {
        let SeenRows { findings, marks } = self;
        let settled = findings.settle(named)?;
        let Named { algorithm, names } = settled;
        match in_order(marks) {
            Some(marks) => Ok(MarkedSet {
                layout,
                algorithm,
                names,
                marks,
            }),
            None => Err(MbtError::NoUniquenessConstraint),
        }
    }
}
