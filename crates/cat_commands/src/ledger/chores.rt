//! The commands of maintenance, which session 0 alone may give.
//!
//! Lucene's `IndexWriter.maybeMerge`, `forceMerge(1)` and `deleteUnusedFiles`, and what `getDocStats` tells.
ghost use Rattle.cat_directory.specs.Frames.{CountsFailures};
ghost use Rattle.std.specs.Prelude.{◌≡◌, ◌≢◌, ◌⊎◌, IfOk, IfErr, OnErr, Err, length};
ghost use Rattle.cat_base.specs.declared.refusal.Refusal.TheVariants.{Damaged, Device, Line as NoForm, Memory};
ghost use Rattle.cat_model.specs.Lines.{Said};
ghost use Rattle.cat_model.specs.Run as run;
ghost use Rattle.cat_cached_sets.specs.filters.Known.{Remembers, RemembersBelow};
ghost use Rattle.cat_ledger.specs.cat_ledger_state.Cores.{LacksInput, LacksToCopy, MayCopy};
ghost use Rattle.cat_ledger.specs.Answering.{AnswersCommand, AnswersSaid};
ghost use Rattle.cat_ledger.specs.Histories.{GoesOn};
ghost use Rattle.cat_ledger.specs.Lasting.{IsCarried};
ghost use Rattle.cat_ledger.specs.Ledgers.{Spares, device_in, policy_in, shape_in};
ghost use Rattle.cat_ledger.specs.Refusals.{HasUntoldInput, KeepsSegments};
ghost use Rattle.cat_protocol.specs.replies.Reply.{answer_of, reply_of};
ghost use Rattle.cat_commands.specs.declared.ledger.chores.Chore.TheVariants.{Merge, Sweep};
ghost use Rattle.cat_commands.specs.ledger.Chores.{IsSwept, KeepsBehind, MayRefuse, MayRefuseMerge, ReachesFor, SparesUsed, SweepsFiles, TellsChore, chore_of, pending_in, sets_left};

use crate::ledger::merging::{force, merge_step};
use crate::ledger::stats::tell_stat;
use cat_base::{Refusal, SessionNo};
use cat_cached_sets::filters::Filters;
use cat_directory::{Directory, Shelf};
use cat_ledger::Ledger;
use cat_protocol::replies::{Answer, News};
use std::alloc::Global;

/// A command of maintenance that makes no cached set; [`warm`](crate::ledger::warm) is the one that does.
#[derive(Clone, Copy)]
pub enum Chore {
    /// A step of the merge that the policy picks (Lucene: `IndexWriter.maybeMerge`).
    Merge,
    /// A merge of all segments is begun (Lucene: `IndexWriter.forceMerge(1)`).
    Force,
    /// The files go that nobody needs (Lucene: `IndexWriter.deleteUnusedFiles`).
    Sweep,
    /// How the service stands (Lucene: `IndexWriter.getDocStats`).
    Stat,
}

/// Answers a MERGE of session 0. Once a merge is done, the set in the making over a segment that it took is given up.
fn merge<D: Directory + Shelf>(
    ledger: &mut Ledger<D>,
    filters: &mut Filters,
) -> Result<Answer, Refusal>
    ensures answers { AnswersCommand D.bytes 0 (run.Command.chore run.Chore.merge) ledger.old (reply_of result) ledger.new }
    ensures refusal { IfErr result (MayRefuseMerge (policy_in ledger.old) (shape_in ledger.old)) }
    ensures reach { IfErr result (λ e. e ≡ Memory → MayCopy (D.bytes (device_in ledger.old)) (shape_in ledger.old).merging) }
    ensures lacks { IfErr result (λ e. e ≡ Damaged → LacksToCopy (D.bytes (device_in ledger.old)) (shape_in ledger.old).merging
        × LacksInput (D.bytes (device_in ledger.old)) (shape_in ledger.old).merging) }
    ensures untold { IfErr result (λ e. e ≡ Damaged → HasUntoldInput (D.bytes (device_in ledger.old)) (shape_in ledger.old).merging) }
    ensures fails { CountsFailures D.can_fail D.fault_count (device_in ledger.old) (device_in ledger.new) result }
    ensures crash { Spares D.may_leave ledger.old ledger.new }
    ensures goes { GoesOn D.bytes D.may_leave ledger.old ledger.new }
    ensures segments { OnErr result (KeepsSegments (shape_in ledger.old) (shape_in ledger.new)) }
    ensures sets { filters.new ≡ sets_left Chore.Merge (shape_in ledger.new) filters.old }
    ensures known { Remembers filters.old filters.new }
    ensures below { RemembersBelow filters.old filters.new }
{
    let answer = merge_step(ledger);
    // Only a merge that is done takes segments out of the list.
    filters.keep_among(ledger.leaves());
    answer
}

/// Answers a SWEEP of session 0.
fn sweep<D: Directory + Shelf>(ledger: &mut Ledger<D>) -> Result<Answer, Refusal>
    ensures answers { AnswersCommand D.bytes 0 (run.Command.chore run.Chore.sweep) ledger.old (reply_of result) ledger.new }
    ensures told { IfOk result (λ a. answer_of a ≡ run.Answer.news (run.News.swept (pending_in (shape_in ledger.old)))) }
    ensures files { SweepsFiles D.bytes D.may_leave ledger.old ledger.new }
    ensures swept { IsCarried (D.bytes (device_in ledger.old)) (shape_in ledger.old) → IfOk result (λ a. IsSwept D.bytes ledger.old ledger.new) }
    ensures refusal { IfErr result (λ e. (e ≡ Memory) ⊎ (e ≡ Device)) }
    ensures fails { CountsFailures D.can_fail D.fault_count (device_in ledger.old) (device_in ledger.new) result }
    ensures crash { SparesUsed D.may_leave ledger.old ledger.new }
    ensures making { (shape_in ledger.new).merging ≡ (shape_in ledger.old).merging }
    ensures goes { GoesOn D.bytes D.may_leave ledger.old ledger.new }
{
    match ledger.sweep() {
        Ok(files) => Ok(Answer::News(News::Swept(files))),
        Err(refusal) => Err(refusal),
    }
}

/// Answers a MERGE, FORCE, SWEEP or STAT.
///
/// [`Refusal::Line`] for any session but 0, which comes first and changes nothing. Of session 0:
///
/// - A MERGE is refused as [`Ledger::merge_step`] is, and a FORCE as [`Ledger::force`] is. Once a merge is done, the set in
///   the making over a segment that it took is given up: its segment is in the list no more. Nothing else changes these sets.
///   Behind a refusal of either the same segments stand, and what waited still waits; behind one of FORCE a merge in the
///   making goes on.
/// - Behind a SWEEP with an OK no file waits to be deleted: each that did is gone, where the directory tells of it, and no other
///   is touched. It is refused with [`Refusal::Device`] where the directory fails: the file that it failed at and those behind it
///   still wait; or with [`Refusal::Memory`], with nothing done.
/// - A STAT, which tells of these cached sets, is refused with [`Refusal::Memory`] alone.
pub fn maintain<D: Directory + Shelf>(
    alloc: Global,
    ledger: &mut Ledger<D>,
    filters: &mut Filters,
    session: SessionNo,
    chore: Chore,
) -> Result<Answer, Refusal>
    ensures answers { AnswersSaid D.bytes session (Said.chore (chore_of chore)) ledger.old (reply_of result) ledger.new }
    ensures foreign { session ≢ 0 → (result ≡ Err NoForm) × (ledger.new ≡ ledger.old) × (filters.new ≡ filters.old) }
    ensures told { IfOk result (λ a. TellsChore (length filters.old.cached) (shape_in ledger.old) chore (answer_of a)) }
    ensures files { session ≡ 0 → chore ≡ Sweep → SweepsFiles D.bytes D.may_leave ledger.old ledger.new }
    ensures swept { chore ≡ Sweep → IsCarried (D.bytes (device_in ledger.old)) (shape_in ledger.old)
        → IfOk result (λ a. IsSwept D.bytes ledger.old ledger.new) }
    ensures refusal { session ≡ 0 → IfErr result (MayRefuse (policy_in ledger.old) (shape_in ledger.old) chore) }
    ensures reach { IfErr result (λ e. e ≡ Memory → ReachesFor chore (D.bytes (device_in ledger.old)) (shape_in ledger.old).merging) }
    ensures lacks { chore ≡ Merge → IfErr result (λ e. e ≡ Damaged → LacksToCopy (D.bytes (device_in ledger.old)) (shape_in ledger.old).merging
        × LacksInput (D.bytes (device_in ledger.old)) (shape_in ledger.old).merging) }
    ensures untold { chore ≡ Merge → IfErr result (λ e. e ≡ Damaged → HasUntoldInput (D.bytes (device_in ledger.old)) (shape_in ledger.old).merging) }
    ensures fails { CountsFailures D.can_fail D.fault_count (device_in ledger.old) (device_in ledger.new) result }
    ensures crash { SparesUsed D.may_leave ledger.old ledger.new }
    ensures goes { GoesOn D.bytes D.may_leave ledger.old ledger.new }
    ensures keeps { OnErr result (KeepsBehind chore (shape_in ledger.old) (shape_in ledger.new)) }
    ensures sets { session ≡ 0 → filters.new ≡ sets_left chore (shape_in ledger.new) filters.old }
    ensures known { Remembers filters.old filters.new }
    ensures below { RemembersBelow filters.old filters.new }
{
    if session != 0 {
        return Err(Refusal::Line);
    }
    match chore {
        Chore::Merge => merge(ledger, filters),
        Chore::Force => force(ledger),
        Chore::Sweep => sweep(ledger),
        Chore::Stat => tell_stat(alloc, ledger, filters),
    }
}
