//! A segment, of the bytes of its file.
ghost use Rattle.std.specs.Prelude.{◌≡◌, ◌⊎◌, ℕ, List, IfOk, IfErr};
ghost use Rattle.cat_base.specs.declared.refusal.Refusal.TheVariants.{Damaged, Memory};
ghost use Rattle.cat_model.specs.Layout.{spelled_layout, IsLayout, Layout, SpellsSegment};
ghost use Rattle.cat_model.specs.View as model;

use crate::assembly::assemble;
use crate::segment::Segment;
use cat_base::Refusal;
use cat_items::file_parts::{layouts_are_told_by_their_bytes, read_segment};
use std::alloc::Global;

/// The segment whose file has these bytes (Lucene: a `SegmentReader` opens a segment so, by the formats of its `Codec`).
///
/// [`Refusal::Damaged`] where no segment is written as these bytes: each is written in one way, and what is cut short,
/// goes on, or keeps a rule of segments not, is no file of one. [`Refusal::Memory`] where memory is refused, and never where
/// the bytes lay out nothing, since all of them are judged before memory is taken; the rules between the parts are judged
/// once the parts are read ([`assemble`]).
pub fn decode_seg(alloc: Global, bytes: &[u8]) -> Result<Segment, Refusal>
    ensures ok { IfOk result (SpellsSegment bytes.now) }
    ensures damaged { IfErr result (λ e. e ≡ Damaged → (s : model.Segment) → SpellsSegment bytes.now s → ⊥) }
    ensures due { IfErr result (λ e. e ≡ Memory → (l : Layout) × IsLayout l × (bytes.now ≡ spelled_layout l)) }
    ensures refusal { IfErr result (λ e. (e ≡ Damaged) ⊎ (e ≡ Memory)) }
{
    let parts = read_segment(alloc, bytes)?;
    assemble(alloc, parts)
}

/// The law that makes the bytes of a segment's file its one spelling: segments that are written alike are one.
pub fn segments_are_told_by_their_bytes()
    ensures { (bytes : List ℕ) (s t : model.Segment) → SpellsSegment bytes s → SpellsSegment bytes t → s ≡ t }
{
    layouts_are_told_by_their_bytes();
}
