//! The command that gives a session a right to a view.
//!
//! Lucene's `SearcherLifetimeManager.acquire`.
ghost use Rattle.std.specs.Prelude.{◌≡◌, ◌⊎◌, ℕ, IfErr, IfOk, OnErr, false};
ghost use Rattle.cat_base.specs.declared.refusal.Refusal.TheVariants.{Gone, Memory};
ghost use Rattle.cat_model.specs.Run as run;
ghost use Rattle.cat_model.specs.State.{has_hold};
ghost use Rattle.cat_ledger_laws.specs.lines.HoldLaws.{holding};
ghost use Rattle.cat_ledger.specs.Answering.{AnswersSaid};
ghost use Rattle.cat_ledger.specs.Grants.{IsAsked};
ghost use Rattle.cat_ledger.specs.Histories.{GoesOn};
ghost use Rattle.cat_ledger.specs.Ledgers.{device_in, shape_in};
ghost use Rattle.cat_protocol.specs.replies.Reply.{answer_of, reply_of};
ghost use Rattle.cat_commands.specs.views.Holding.{said_open};

use cat_base::{Refusal, SessionNo, Token};
use cat_directory::{Directory, Shelf};
use cat_ledger::Ledger;
use cat_protocol::replies::Answer;

/// Answers an OPEN of the token, or of the newest view: the session has a right to it until it closes it, and the answer is
/// its token. Where the session holds it already nothing changes. (Lucene: `SearcherLifetimeManager.acquire`.)
///
/// [`Refusal::Gone`] where no view is recorded under the token; else [`Refusal::Memory`], but never where the session holds
/// the token already. A refusal changes nothing.
pub fn open<D: Directory + Shelf>(
    ledger: &mut Ledger<D>,
    session: SessionNo,
    token: Option<Token>,
) -> Result<Answer, Refusal>
    ensures answers { AnswersSaid D.bytes session (said_open token) ledger.old (reply_of result) ledger.new }
    ensures told { IfOk result (λ a. (t : ℕ) × IsAsked (shape_in ledger.old) token t × (answer_of a ≡ run.Answer.number t)
        × (shape_in ledger.new ≡ holding session t (shape_in ledger.old))) }
    ensures refusal { IfErr result (λ e. (e ≡ Gone) ⊎ (e ≡ Memory)) }
    ensures gone { IfErr result (λ e. e ≡ Gone → (t : ℕ) → IsAsked (shape_in ledger.old) token t → ⊥) }
    ensures due { IfErr result (λ e. e ≡ Memory → (t : ℕ) × IsAsked (shape_in ledger.old) token t
        × (has_hold (shape_in ledger.old).holds session t ≡ false)) }
    ensures err { OnErr result (ledger.new ≡ ledger.old) }
    ensures same { device_in ledger.new ≡ device_in ledger.old }
    ensures goes { GoesOn D.bytes D.may_leave ledger.old ledger.new }
{
    match ledger.hold(session, token) {
        Ok(token) => Ok(Answer::Number(token)),
        Err(refusal) => Err(refusal),
    }
}
