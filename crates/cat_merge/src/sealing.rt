//! The segment that a merge makes of the rows that it kept.
ghost use Rattle.std.specs.Prelude.{◌≡◌, ◌≢◌, ◌<◌, ◌++◌, ◌∷◌, [], map, length, IfOk, OnOk};
ghost use Rattle.cat_base.specs.declared.refusal.Refusal.TheVariants.{Memory};
ghost use Rattle.cat_items.specs.file_parts.Parts.{heads_in};
ghost use Rattle.cat_model.specs.Layout.{head_of};
ghost use Rattle.cat_merge.specs.Fields.{kept_rows};
ghost use Rattle.cat_merge.specs.Making.{AreParts};
ghost use Rattle.cat_merge.specs.Merging.{MayMerge};
ghost use Rattle.cat_merge.specs.Walk.{AreInputs};

use crate::input::Input;
use crate::making::Parts;
use crate::rows::KeptRow;
use cat_base::{Refusal, SegNo, Text, WriteNo};
use cat_items::Schema;
use cat_items::file_parts::SegmentParts;
use cat_views::cat_segment::{Segment, assemble_runs};
use std::alloc::{AllocError, Global};

/// Adds the number of the write that put the row, the row's id, and the length of its source.
fn unzip(
    row: KeptRow,
    numbers: &mut Vec<WriteNo>,
    ids: &mut Vec<Text>,
    lengths: &mut Vec<u32>,
) -> Result<(), AllocError>
    ensures numbers { OnOk result (numbers.new.items ≡ numbers.old.items ++ row.number ∷ []) }
    ensures ids { OnOk result (ids.new.items ≡ ids.old.items ++ row.id ∷ []) }
    ensures lengths { OnOk result (lengths.new.items ≡ lengths.old.items ++ row.length ∷ []) }
{
    numbers.push(row.number())?;
    lengths.push(row.length())?;
    ids.push(row.into_id())?;
    Ok(())
}

/// The numbers of the writes that put the rows, the rows' ids, and the lengths of their sources.
fn unzipped(
    alloc: Global,
    kept: Vec<KeptRow>,
) -> Result<(Vec<WriteNo>, Vec<Text>, Vec<u32>), AllocError>
    ensures heads { IfOk result (λ p. heads_in p.0.items p.1.items p.2.items ≡ kept.items) }
    ensures ids { IfOk result (λ p. length p.1.items ≡ length p.0.items) }
    ensures lengths { IfOk result (λ p. length p.2.items ≡ length p.0.items) }
{
    let mut numbers = Vec::with_capacity(alloc, kept.len())?;
    let mut ids = Vec::with_capacity(alloc, kept.len())?;
    let mut lengths = Vec::with_capacity(alloc, kept.len())?;
    for row in kept {
        unzip(row, &mut numbers, &mut ids, &mut lengths)?;
    }
    Ok((numbers, ids, lengths))
}

/// Want of memory, which is all that this refusal says.
fn want_of_memory(refusal: Refusal) -> AllocError
    requires { refusal ≡ Memory }
{
    match refusal {
        Refusal::Memory => AllocError,
        _ => unreachable!(),
    }
}

/// The segment of the kept rows, of which there is one at least.
pub(crate) fn sealed(
    alloc: Global,
    number: SegNo,
    schema: Schema,
    inputs: &[Input],
    kept: Vec<KeptRow>,
    made: Parts,
) -> Result<Segment, AllocError>
    requires may { MayMerge number schema inputs.now }
    requires inputs { AreInputs inputs.now }
    requires kept { kept.items ≡ map head_of (kept_rows inputs.now) }
    requires parts { AreParts schema inputs.now made }
    requires some { kept_rows inputs.now ≢ [] }
    ensures ok { IfOk result (λ s. s ≡ record { number = number; schema = schema; rows = kept_rows inputs.now }) }
    ensures some { IfOk result (λ s. kept_rows inputs.now ≢ []) }
{
    let (columns, runs, orders) = made.finish(alloc, schema.fields(), inputs)?;
    let (numbers, ids, lengths) = unzipped(alloc, kept)?;
    let parts = SegmentParts {
        number,
        schema,
        numbers,
        ids,
        lengths,
        columns,
    };
    match assemble_runs(alloc, parts, runs, orders) {
        Ok(segment) => Ok(segment),
        // The parts are those of a segment, so that none is damaged.
        Err(refusal) => Err(want_of_memory(refusal)),
    }
}
