//! The command that ends a session's right to a view.
//!
//! Lucene's `SearcherLifetimeManager.release`.
ghost use Rattle.std.specs.Prelude.{◌≡◌, Err, IfErr, OnErr, OnOk, false, true};
ghost use Rattle.cat_base.specs.declared.refusal.Refusal.TheVariants.{NotHeld};
ghost use Rattle.cat_model.specs.Lines.{Said};
ghost use Rattle.cat_model.specs.State.{has_hold};
ghost use Rattle.cat_ledger_laws.specs.lines.HoldLaws.{letting_go};
ghost use Rattle.cat_ledger_laws.specs.lines.LineLaws.{tells};
ghost use Rattle.cat_ledger.specs.Answering.{AnswersSaid};
ghost use Rattle.cat_ledger.specs.Histories.{GoesOn};
ghost use Rattle.cat_ledger.specs.Ledgers.{device_in, shape_in};
ghost use Rattle.cat_protocol.specs.replies.Reply.{reply_of};

use cat_base::{Refusal, SessionNo, Token};
use cat_directory::{Directory, Shelf};
use cat_ledger::Ledger;
use cat_protocol::replies::Answer;

/// Answers a CLOSE: the session's right ends, and the answer is its token; the view may go then. It takes no memory. (Lucene:
/// `SearcherLifetimeManager.release`.)
///
/// [`Refusal::NotHeld`] where the session doesn't hold the token, and only then; nothing changes then.
pub fn close<D: Directory + Shelf>(
    ledger: &mut Ledger<D>,
    session: SessionNo,
    token: Token,
) -> Result<Answer, Refusal>
    ensures answers { AnswersSaid D.bytes session (Said.close token) ledger.old (reply_of result) ledger.new }
    ensures refusal { IfErr result (λ e. e ≡ NotHeld) }
    ensures due { has_hold (shape_in ledger.old).holds session token ≡ false → result ≡ Err NotHeld }
    ensures told { has_hold (shape_in ledger.old).holds session token ≡ true → reply_of result ≡ tells token }
    ensures held { OnOk result (shape_in ledger.new ≡ letting_go session token (shape_in ledger.old)) }
    ensures err { OnErr result (ledger.new ≡ ledger.old) }
    ensures same { device_in ledger.new ≡ device_in ledger.old }
    ensures goes { GoesOn D.bytes D.may_leave ledger.old ledger.new }
{
    if !ledger.let_go(session, token) {
        return Err(Refusal::NotHeld);
    }
    Ok(Answer::Number(token))
}
