//! The merge of segments in steps.
ghost use Rattle.std.specs.Prelude.{◌≡◌, ◌≢◌, ◌+◌, ◌-◌, ◌++◌, ◌≤◌, ◌<◌, ℕ, List, true, false, min, map, take, length, [], IfOk, OnOk, OnErr, MatchOption};
ghost use Rattle.std.specs.List.{flat_map};
ghost use Rattle.cat_base.specs.declared.refusal.Refusal.TheVariants.{Damaged, Device, Memory};
ghost use Rattle.cat_directory.specs.Devices.{ReadingCount};
ghost use Rattle.cat_directory.specs.Frames.{OnlyReads};
ghost use Rattle.cat_model.specs.Layout.{head_of};
ghost use Rattle.cat_model.specs.Limits.{step_limit};
ghost use Rattle.cat_model.specs.Merged.{rows_of_all, rows_kept, records_kept, merged_leaf, AreDeletedFrom};
ghost use Rattle.cat_merge.specs.Copied.{bytes_in};
ghost use Rattle.cat_ledger_laws.specs.model.Stored.{joined_sources};
ghost use Rattle.cat_merge.specs.Fields.{kept_rows};
ghost use Rattle.cat_merge.specs.Merging.{MayMerge, with_live};
ghost use Rattle.cat_merge.specs.Places.{passed_at, IsPlace, IsRowPlace};
ghost use Rattle.cat_merge.specs.Ranges.{AreRangesApart, AreWithin};
ghost use Rattle.cat_merge.specs.Walk.{heads_at, source_at, AreInputs};
ghost use Rattle.cat_merge.specs.files.Sources.{AreJudged};

use crate::counting::rows_in;
use crate::files::judging::lacks_sources;
use crate::input::Input;
use crate::making::Parts;
use crate::place::Place;
use crate::rows::KeptRow;
use crate::sealing::sealed;
use crate::settling::settled;
use crate::sources::{SourceRange, add_source};
use cat_base::{MAX_STEP_ROWS, Refusal, SegNo};
use cat_directory::Shelf;
use cat_items::Schema;
use cat_views::cat_segment::{Live, Segment};
use std::alloc::{AllocError, Global};
use std::marker::Model;

/// A merge of segments in the making, step by step (Lucene: `SegmentMerger`, for an `OneMerge`).
pub struct Merge {
    number: SegNo,
    schema: Schema,
    inputs: Vec<Input>,
    // How many rows the inputs have, dead ones too.
    total: usize,
    // How many of them are passed, and the place of the next.
    passed: usize,
    place: Place,
    kept: Vec<KeptRow>,
    // What is made for the end, a part in each step.
    parts: Parts,
}

impl Model for Merge {
    ghost use Rattle.cat_merge.specs.Fields.{kept_rows};
    ghost use Rattle.cat_merge.specs.Merging.{MergeUnderWay};
    ghost use Rattle.cat_merge.specs.Walk.{IsMergeWalk};

    ghost Value = { MergeUnderWay };

    ghost view = { λ m. record { number = m.number; schema = m.schema; inputs = m.inputs.items; passed = m.passed } };

    ghost invariant = { λ m. IsMergeWalk m.number m.schema m.inputs.items m.total m.passed m.place m.kept.items m.parts };
}

impl Drop for Merge {
    fn drop(self) {
        let Merge {
            number: _,
            schema,
            inputs,
            total: _,
            passed: _,
            place: _,
            kept,
            parts,
        } = self;
        drop(schema);
        drop(inputs);
        drop(kept);
        drop(parts);
    }
}

/// Keeps the row of the place, if it was live at the beginning, and adds where its source stands.
fn pass_row(
    inputs: &[Input],
    place: Place,
    kept: &mut Vec<KeptRow>,
    ranges: &mut Vec<SourceRange>,
) -> Result<(), AllocError>
    requires { IsRowPlace inputs.now place }
    ensures kept { OnOk result (kept.new.items ≡ kept.old.items ++ heads_at inputs.now place) }
    ensures ranges { OnOk result ((files : ℕ → List ℕ) → flat_map (bytes_in files) ranges.new.items
        ≡ flat_map (bytes_in files) ranges.old.items ++ source_at files inputs.now place) }
    ensures apart { OnOk result (AreRangesApart ranges.old.items → AreRangesApart ranges.new.items) }
    ensures within { OnOk result (AreWithin inputs.now ranges.old.items → AreWithin inputs.now ranges.new.items) }
    ensures front { take (length kept.old.items) kept.new.items ≡ kept.old.items }
{
    let input = &inputs[place.input];
    if input.live().is_live(place.row) {
        kept.push(KeptRow::of(input.segment(), place.row)?)?;
        add_source(ranges, input.segment(), place.row)?;
    }
    Ok(())
}

/// Passes so many rows from the place on, and answers the place behind them and where the sources of those stand that it keeps.
fn pass_rows(
    alloc: Global,
    inputs: &[Input],
    from: Place,
    count: usize,
    kept: &mut Vec<KeptRow>,
) -> Result<(Place, Vec<SourceRange>), AllocError>
    requires inputs { AreInputs inputs.now }
    requires place { IsPlace inputs.now from }
    requires room { passed_at inputs.now from + count ≤ length (rows_of_all inputs.now) }
    requires kept { kept.old.items ≡ map head_of (rows_kept inputs.now (passed_at inputs.now from)) }
    ensures place { IfOk result (λ p. IsPlace inputs.now p.0) }
    ensures passed { IfOk result (λ p. passed_at inputs.now p.0 ≡ passed_at inputs.now from + count) }
    ensures kept { OnOk result (kept.new.items ≡ map head_of (rows_kept inputs.now (passed_at inputs.now from + count))) }
    ensures ranges { IfOk result (λ p. (files : ℕ → List ℕ)
        → joined_sources (records_kept files inputs.now (passed_at inputs.now from)) ++ flat_map (bytes_in files) p.1.items
        ≡ joined_sources (records_kept files inputs.now (passed_at inputs.now from + count))) }
    ensures apart { IfOk result (λ p. AreRangesApart p.1.items) }
    ensures within { IfOk result (λ p. AreWithin inputs.now p.1.items) }
    ensures front { take (length kept.old.items) kept.new.items ≡ kept.old.items }
{
    let mut place = from;
    let mut ranges = Vec::new(alloc);
    for _ in 0..count {
        pass_row(inputs, place, kept, &mut ranges)?;
        place = place.next(inputs);
    }
    Ok((place, ranges))
}

impl Merge {
    /// Begins the merge of these segments into one under the number. It keeps the rows that are live now.
    pub fn begin(
        alloc: Global,
        number: SegNo,
        schema: &Schema,
        inputs: Vec<Input>,
    ) -> Result<Merge, AllocError>
        requires { MayMerge number schema.now inputs.items }
        ensures ok { IfOk result (λ m. m ≡ record { number = number; schema = schema.now; inputs = inputs.items; passed = 0 }) }
    {
        let total = rows_in(&inputs);
        let parts = Parts::begin(alloc, &inputs)?;
        Ok(Merge {
            number,
            schema: schema.copy()?,
            inputs,
            total,
            passed: 0,
            place: Place::first(),
            kept: Vec::new(alloc),
            parts,
        })
    }

    /// How many rows of the inputs are passed, dead ones too.
    pub fn passed(&self) -> usize
        ensures { result ≡ self.now.passed }
    {
        self.passed
    }

    /// How many rows are left to pass, dead ones too.
    pub fn rows_left(&self) -> usize
        ensures { result + self.now.passed ≡ length (rows_of_all self.now.inputs) }
    {
        self.total - self.passed
    }

    /// Passes as many rows more as one step may, or all that are left, dead ones counted, and answers where the texts stand that the items of
    /// those came as that it keeps. Each range lies within the sources of an input's segment, and no two neighbours could be one.
    /// An error leaves the merge as it was.
    ///
    /// Before, while one is left, it makes a part of what [`Merge::seal`] needs: the column of one field, or a part of the index of
    /// the ids. So a step takes longer than its rows while parts are left, and the end takes little.
    pub fn copy_step(&mut self, alloc: Global) -> Result<Vec<SourceRange>, AllocError>
        ensures ok { OnOk result (self.new ≡ record self.old {
          passed = self.old.passed + min step_limit (length (rows_of_all self.old.inputs) - self.old.passed);
        }) }
        ensures sources { IfOk result (λ ranges. (files : ℕ → List ℕ)
            → joined_sources (records_kept files self.old.inputs self.old.passed) ++ flat_map (bytes_in files) ranges.items
            ≡ joined_sources (records_kept files self.new.inputs self.new.passed)) }
        ensures apart { IfOk result (λ ranges. AreRangesApart ranges.items) }
        ensures within { IfOk result (λ ranges. AreWithin self.old.inputs ranges.items) }
        ensures err { OnErr result (self.new ≡ self.old) }
    {
        // A part of what the end needs, so that little is left to be made there.
        self.parts.step(alloc, self.schema.fields(), &self.inputs)?;
        let count = self.rows_left().min(MAX_STEP_ROWS);
        let before = self.kept.len();
        match pass_rows(alloc, &self.inputs, self.place, count, &mut self.kept) {
            Ok((place, ranges)) => {
                self.place = place;
                self.passed += count;
                Ok(ranges)
            }
            Err(refusal) => {
                self.kept.truncate(before);
                Err(refusal)
            }
        }
    }

    /// Why a step isn't made that memory is wanting for: [`Refusal::Damaged`] where one of the texts that it would copy isn't in
    /// the file of its segment, [`Refusal::Device`] where the device fails; else [`Refusal::Memory`]. It takes no memory.
    pub(crate) fn why_not_made<S: Shelf>(&self, shelf: &mut S) -> Refusal
        ensures damaged { result ≡ Damaged → AreJudged (S.bytes shelf.old) self.now.inputs self.now.passed
            (self.now.passed + min step_limit (length (rows_of_all self.now.inputs) - self.now.passed)) true }
        ensures due { result ≡ Memory → AreJudged (S.bytes shelf.old) self.now.inputs self.now.passed
            (self.now.passed + min step_limit (length (rows_of_all self.now.inputs) - self.now.passed)) false }
        ensures device { result ≡ Device → S.can_fail shelf.old }
        ensures frame { OnlyReads S.bytes S.may_leave S.can_fail shelf.old shelf.new }
        ensures counted { ReadingCount (S.fault_count shelf.old) (S.fault_count shelf.new) result }
    {
        let count = self.rows_left().min(MAX_STEP_ROWS);
        match lacks_sources(shelf, &self.inputs, self.place, count) {
            Ok(true) => Refusal::Damaged,
            Ok(false) => Refusal::Memory,
            Err(refusal) => refusal,
        }
    }

    /// Which rows of the merged segment are live, where those of its inputs are that are live now.
    pub fn settle(&self, alloc: Global, now: &[&Live]) -> Result<Live, AllocError>
        requires { AreDeletedFrom self.now.inputs (with_live self.now.inputs (map (λ l. l.now) now.now)) }
        ensures { IfOk result (λ l. l ≡ (merged_leaf self.now.number self.now.schema self.now.inputs
            (with_live self.now.inputs (map (λ l. l.now) now.now))).live) }
    {
        settled(alloc, &self.inputs, now)
    }

    /// The segment of the rows that were kept, once all are passed; none where none was (Lucene: `SegmentMerger.merge`).
    /// Whatever comes, the merge is over. The error is want of memory, said too where a text field of these rows has 2^32
    /// words or postings or more.
    pub fn seal(self, alloc: Global) -> Result<Option<Segment>, AllocError>
        requires { self.passed ≡ length (rows_of_all self.inputs) }
        ensures ok { IfOk result (λ o. MatchOption o (kept_rows self.inputs ≡ [])
            (λ s. (kept_rows self.inputs ≢ []) × (s ≡ (merged_leaf self.number self.schema self.inputs self.inputs).segment))) }
    {
        if self.kept.is_empty() {
            return Ok(None);
        }
        let Merge {
            number,
            schema,
            inputs,
            total: _,
            passed: _,
            place: _,
            kept,
            parts,
        } = self;
        Ok(Some(sealed(alloc, number, schema, &inputs, kept, parts)?))
    }
}
