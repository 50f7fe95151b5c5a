//! The command that reads a stored item under a right to a view.
//!
//! Lucene's `StoredFields.document`, over a reader that `SearcherLifetimeManager.acquire` gave.
ghost use Rattle.cat_directory.specs.Frames.{CountsFailures, OnlyReads};
ghost use Rattle.std.specs.Prelude.{◌≡◌, ◌⊎◌, ℕ, Err, IfErr, IfOk, List, Ok, Option, false, true};
ghost use Rattle.cat_base.specs.declared.refusal.Refusal.TheVariants.{Damaged, Device, Memory, NotHeld};
ghost use Rattle.cat_model.specs.Answer.{Found, HasNoLineFeed};
ghost use Rattle.cat_model.specs.Heard.{id_of};
ghost use Rattle.cat_model.specs.Lines.{Said};
ghost use Rattle.cat_model.specs.Run as run;
ghost use Rattle.cat_model.specs.State.{has_hold};
ghost use Rattle.cat_model.specs.Text.{Text};
ghost use Rattle.cat_model.specs.View.{View};
ghost use Rattle.cat_cached_sets.specs.cat_views.Sources.{HoldsSource, MayReachSource, TellsSource};
ghost use Rattle.cat_ledger_laws.specs.lines.ReadLaws.{IsRecordedAs};
ghost use Rattle.cat_ledger.specs.Answering.{AnswersSaid};
ghost use Rattle.cat_ledger.specs.Histories.{GoesOn};
ghost use Rattle.cat_ledger.specs.Ledgers.{device_in, shape_in};
ghost use Rattle.cat_protocol.specs.replies.Reply.{answer_of, reply_of};

use cat_base::{Refusal, SessionNo, Token};
use cat_directory::{Directory, Shelf};
use cat_items::id_ok;
use cat_ledger::Ledger;
use cat_protocol::replies::Answer;

/// Answers a GET: the bytes of the item of this id, as they were put before the view was recorded; none where no item has it.
/// (Lucene: `StoredFields.document`.)
///
/// The first of these that is so is the refusal: [`Refusal::Id`] where the id has the wrong form, [`Refusal::NotHeld`] where
/// the session doesn't hold the token; [`Refusal::Damaged`] where the file with the bytes is absent, ends before they do, or
/// has a line feed in them; [`Refusal::Device`] where the directory fails; else [`Refusal::Memory`], which never hides that the
/// file is absent or ends too soon. So no bytes that are told go beyond their line. The ledger stays as it is in each case.
pub fn get<D: Directory + Shelf>(
    ledger: &mut Ledger<D>,
    session: SessionNo,
    token: Token,
    id: &str,
) -> Result<Answer, Refusal>
    ensures answers { AnswersSaid D.bytes session (Said.get token id.now) ledger.old (reply_of result) ledger.new }
    ensures wrong { IfErr (id_of id.now) (λ e. result ≡ Err e) }
    ensures due { id_of id.now ≡ Ok id.now → has_hold (shape_in ledger.old).holds session token ≡ false → result ≡ Err NotHeld }
    ensures refusal { id_of id.now ≡ Ok id.now → has_hold (shape_in ledger.old).holds session token ≡ true
        → IfErr result (λ e. (e ≡ Memory) ⊎ (e ≡ Device) ⊎ (e ≡ Damaged)) }
    ensures one_line { IfOk result (λ a. (source : Option Text) × (answer_of a ≡ run.Answer.found (Found.source source)) × HasNoLineFeed source) }
    ensures fails { CountsFailures D.can_fail D.fault_count (device_in ledger.old) (device_in ledger.new) result }
    ensures damaged { IfErr result (λ e. e ≡ Damaged → (view : View) → IsRecordedAs (shape_in ledger.old).views token view
        → (files : ℕ → List ℕ) → TellsSource (D.bytes (device_in ledger.old)) files view id.now → HoldsSource files view id.now → ⊥) }
    ensures reach { IfErr result (λ e. e ≡ Memory → (view : View) → IsRecordedAs (shape_in ledger.old).views token view
        → MayReachSource (D.bytes (device_in ledger.old)) view id.now) }
    ensures shape { shape_in ledger.new ≡ shape_in ledger.old }
    ensures frame { OnlyReads D.bytes D.may_leave D.can_fail (device_in ledger.old) (device_in ledger.new) }
    ensures goes { GoesOn D.bytes D.may_leave ledger.old ledger.new }
{
    if !id_ok(id) {
        return Err(Refusal::Id);
    }
    match ledger.source(session, token, id) {
        Ok(found) => Ok(Answer::Source(found)),
        Err(refusal) => Err(refusal),
    }
}
