//! The two words that all callers share, and the steps on them.
ghost use Rattle.std.specs.Prelude.{◌≡◌, [], IfOk};
ghost use Rattle.crossbeam_utils.specs.Seq.{cell_view};
ghost use Rattle.cat_threads.specs.history.Rules.{scribe};

use crate::history::sight::Sight;
use atomic_table::{Join, Split};
use crossbeam_utils::atomic::seq_cell::{Pass as CellPass, RuledSeqCell};
use crossbeam_utils::rule::{Outcome, Protocol};
use std::alloc::{AllocError, Global};
use std::marker::{Brand, PhantomData};

/// The first word is the number of writes since the start, the second the newest record's token less the start's.
pub struct OneList;

impl Protocol<[u64; 2], Sight> for OneList {
    ghost use Rattle.std.specs.Prelude.{[]};
    ghost use Rattle.cat_threads.specs.history.Rules.{scribe, Kept};

    ghost holds = { Kept };

    ghost first = { scribe [] 0 [] [] };
}

/// The load after a join.
pub(crate) struct Checks;

impl Outcome<[u64; 2], Sight> for Checks {
    ghost use Rattle.cat_threads.specs.history.Rules.{Checked};

    ghost then = { Checked };
}

/// The write that a step notes. Each call picks it.
pub trait Noting {
    ghost use Rattle.cat_threads.specs.history.Entries.{LogEntry};

    ghost entry: { LogEntry };
}

impl Noting for Brand {
    ghost use Rattle.std.specs.Prelude.{[]};
    ghost use Rattle.cat_model.specs.Write.{Write};
    ghost use Rattle.cat_threads.specs.history.Entries.{entry};

    ghost entry = { entry 0 (Write.delete []) };
}

pub(crate) struct Notes<W: Noting> {
    of: PhantomData<W>,
}

impl<W: Noting> Outcome<[u64; 2], Sight> for Notes<W> {
    ghost use Rattle.cat_threads.specs.history.Rules.{Noted};

    ghost then = { Noted W.entry };
}

pub(crate) struct Records;

impl Outcome<[u64; 2], Sight> for Records {
    ghost use Rattle.cat_threads.specs.history.Rules.{Recorded};

    ghost then = { Recorded };
}

/// Takes all that a pass knows.
pub(crate) struct Whole;

impl Split<Sight> for Whole {
    ghost use Rattle.cat_threads.specs.history.Rules.{nobody};

    ghost left = { λ v. nobody };

    ghost right = { λ v. v };
}

/// A caller's pass goes into the scribe's.
pub(crate) struct Under;

impl Join<Sight> for Under {
    ghost use Rattle.cat_threads.specs.history.Rules.{nobody, under};

    ghost both = { under };

    ghost spent = { nobody };
}

/// The caller's part comes out again.
pub(crate) struct Parts;

impl Split<Sight> for Parts {
    ghost use Rattle.cat_threads.specs.history.Rules.{left_part, right_part};

    ghost left = { left_part };

    ghost right = { right_part };
}

/// What a pass has seen goes to another.
pub(crate) struct Tells;

impl Split<Sight> for Tells {
    ghost use Rattle.cat_threads.specs.history.Rules.{note_of};

    ghost left = { λ v. v };

    ghost right = { note_of };
}

pub(crate) struct Level;

impl Join<Sight> for Level {
    ghost use Rattle.cat_threads.specs.history.Rules.{nobody, level};

    ghost both = { level };

    ghost spent = { nobody };
}

/// The session that gets a pass. Each call picks it.
pub(crate) trait Seating {
    ghost use Rattle.std.specs.Prelude.{ℕ};

    ghost session: { ℕ };
}

impl Seating for Brand {
    ghost session = { 0 };
}

pub(crate) struct Seats<S: Seating> {
    of: PhantomData<S>,
}

impl<S: Seating> Split<Sight> for Seats<S> {
    ghost use Rattle.cat_threads.specs.history.Rules.{seating, seat_for};

    ghost left = { seating S.session };

    ghost right = { seat_for S.session };
}

/// The two words.
pub type Cell = RuledSeqCell<[u64; 2], Sight, OneList, 2>;

/// What a pass has seen of them. It has no bytes.
pub type Seat = CellPass<[u64; 2], Sight>;

/// The words of an empty list, and the scribe's pass.
pub fn new_cell(alloc: Global) -> Result<(Cell, Seat), AllocError>
    ensures same { IfOk result (λ r. r.1.table_id ≡ r.0.table.shared.table_id) }
    ensures new { IfOk result (λ r. cell_view r.1 ≡ scribe [] 0 [] []) }
{
    Cell::ruled(alloc, [0, 0])
}
