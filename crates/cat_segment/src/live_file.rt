//! The file of the live rows of a segment, as a commit writes it.
ghost use Rattle.std.specs.Prelude.{◌≡◌, ◌⊎◌, ◌<◌, ◌^◌, ◌++◌, ◌∷◌, ℕ, List, ◌↔◌, length, IfOk, IfErr, IsTrue};
ghost use Rattle.cat_base.specs.Bytes.{spelled_u32, spelled_u64};
ghost use Rattle.cat_base.specs.declared.refusal.Refusal.TheVariants.{Damaged, Memory};
ghost use Rattle.cat_model.specs.LiveFile.{LiveRows, AreLiveRows, SpellsLive};
ghost use Rattle.cat_segment.specs.LiveStart.{MayStand};

use crate::live::Live;
use cat_base::{Cursor, Generation, MAX_ROWS, Refusal, SegNo, is_file_number, put_u32, put_u64};
use cat_columns::{RowSet, sets_are_told_by_their_bytes};
use std::alloc::{AllocError, Global};
use std::marker::Model;

/// The first four bytes of the file, `CLIV`.
const MAGIC: u32 = 0x434c_4956;

/// The version of the layout, the fifth byte.
const VERSION: u8 = 1;

/// How many bytes stand before the set of rows.
const START_BYTES: usize = 25;

/// What a file says of the live rows of a segment, of which some row isn't live (Lucene: what
/// `LiveDocsFormat.readLiveDocs` reads).
///
/// Contracts see it as the record of the two numbers and of one truth value for each row.
#[derive(Drop)]
pub struct LiveFile {
    /// The number of the segment.
    pub number: SegNo,
    /// The number of the commit that wrote the file.
    pub generation: Generation,
    /// Which rows are live.
    pub live: Live,
}

impl Model for LiveFile {
    ghost use Rattle.cat_model.specs.LiveFile as model;

    ghost Value = { model.LiveRows };

    ghost view = { λ f. record { number = f.number; generation = f.generation; live = f.live } };
}

/// What stands before the set of rows, with any numbers.
#[derive(Clone, Copy, Drop)]
struct Start {
    magic: u32,
    version: u8,
    number: u64,
    generation: u64,
    rows: u32,
}

/// Takes what stands before the set of rows. [`Refusal::Damaged`] where fewer bytes are left.
fn take_start(cursor: &mut Cursor<'_>) -> Result<Start, Refusal>
    ensures ok { IfOk result (λ s. cursor.old
        ≡ spelled_u32 s.magic ++ (s.version ∷ (spelled_u64 s.number ++ (spelled_u64 s.generation ++ (spelled_u32 s.rows ++ cursor.new))))) }
    ensures fits { IfOk result (λ s. (s.magic < 2 ^ 32) × (s.number < 2 ^ 64) × (s.generation < 2 ^ 64) × (s.rows < 2 ^ 32)) }
    ensures err { IfErr result (λ e. (e ≡ Damaged) × (length cursor.old < 25)) }
{
    let magic = cursor.take_u32()?;
    let version = cursor.take_u8()?;
    let number = cursor.take_u64()?;
    let generation = cursor.take_u64()?;
    let rows = cursor.take_u32()?;
    Ok(Start {
        magic,
        version,
        number,
        generation,
        rows,
    })
}

/// Whether a file of live rows may begin so.
fn may_stand(start: Start) -> bool
    ensures { IsTrue result ↔ MayStand start }
{
    start.magic == MAGIC
        && start.version == VERSION
        && is_file_number(start.number)
        && is_file_number(start.generation)
        && start.rows != 0
        && start.rows as usize <= MAX_ROWS
}

/// The bytes of the file of the live rows of the segment of the number, as the commit of the generation writes it
/// (Lucene: `LiveDocsFormat.writeLiveDocs`). It asks for numbers that the file's name can have, and for a row that isn't
/// live: a segment without deleted rows has no such file.
pub fn encode_liv(number: SegNo, generation: Generation, live: &Live) -> Result<Vec<u8>, AllocError>
    requires { AreLiveRows (record { number = number; generation = generation; live = live.now }) }
    ensures ok { IfOk result (λ b. SpellsLive b.items (record { number = number; generation = generation; live = live.now })) }
{
    let packed = live.rows().to_bytes()?;
    let mut out = Vec::new(*packed.allocator());
    put_u32(&mut out, MAGIC)?;
    out.push(VERSION)?;
    put_u64(&mut out, number)?;
    put_u64(&mut out, generation)?;
    put_u32(&mut out, live.len() as u32)?;
    out.extend_from_slice(&packed)?;
    Ok(out)
}

/// What the file with these bytes says of live rows (Lucene: `LiveDocsFormat.readLiveDocs`).
///
/// [`Refusal::Damaged`] exactly where the bytes are those of no such file: none is written in two ways, and every row set but
/// the whole one has its one file. That is judged before memory is asked for. [`Refusal::Memory`] where memory is refused.
pub fn decode_liv(alloc: Global, bytes: &[u8]) -> Result<LiveFile, Refusal>
    ensures ok { IfOk result (SpellsLive bytes.now) }
    ensures damaged { IfErr result (λ e. e ≡ Damaged → (rows : LiveRows) → SpellsLive bytes.now rows → ⊥) }
    ensures due { IfErr result (λ e. e ≡ Memory → (rows : LiveRows) × SpellsLive bytes.now rows) }
    ensures refusal { IfErr result (λ e. (e ≡ Damaged) ⊎ (e ≡ Memory)) }
{
    let mut cursor = Cursor::new(bytes);
    let start = take_start(&mut cursor)?;
    if !may_stand(start) {
        return Err(Refusal::Damaged);
    }
    let len = start.rows as usize;
    let packed = &bytes[START_BYTES..];
    if RowSet::are_all(len, packed) {
        return Err(Refusal::Damaged);
    }
    let rows = RowSet::from_bytes(alloc, len, packed)?;
    Ok(LiveFile {
        number: start.number,
        generation: start.generation,
        live: Live::of(rows),
    })
}

/// The laws that make the bytes of a file of live rows its one spelling: what is said of live rows has one spelling, and
/// nothing else has it.
pub fn live_rows_are_told_by_their_bytes()
    ensures bytes { (a b : List ℕ) (r : LiveRows) → SpellsLive a r → SpellsLive b r → a ≡ b }
    ensures rows { (a : List ℕ) (r s : LiveRows) → SpellsLive a r → SpellsLive a s → r ≡ s }
{
    sets_are_told_by_their_bytes();
}
