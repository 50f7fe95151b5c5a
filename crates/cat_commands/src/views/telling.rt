//! The command that tells of a held view, and changes nothing.
//!
//! Lucene's `IndexCommit.getFileNames`, of a `DirectoryReader`'s commit.
ghost use Rattle.std.specs.Prelude.{◌≡◌, Err, IfErr, IfOk, false, true};
ghost use Rattle.cat_base.specs.declared.refusal.Refusal.TheVariants.{Memory, NotHeld};
ghost use Rattle.cat_model.specs.Lines.{Said};
ghost use Rattle.cat_model.specs.State.{has_hold};
ghost use Rattle.cat_model.specs.View.{View, needs};
ghost use Rattle.cat_ledger_laws.specs.lines.ReadLaws.{IsRecordedAs};
ghost use Rattle.cat_ledger.specs.Answering.{AnswersSaid, TellsNames};
ghost use Rattle.cat_ledger.specs.Ledgers.{shape_in};
ghost use Rattle.cat_protocol.specs.replies.Reply.{answer_of, reply_of};

use cat_base::{Refusal, SessionNo, Token};
use cat_directory::{Directory, Shelf};
use cat_ledger::Ledger;
use cat_protocol::replies::Answer;
use std::alloc::{AllocError, Global};

/// Answers a FILES of a token: the names of the files that the held view needs, in byte order. (Lucene:
/// `IndexCommit.getFileNames`.)
///
/// [`Refusal::NotHeld`] where the session doesn't hold the token; else [`Refusal::Memory`].
pub fn files_of_token<D: Directory + Shelf>(
    alloc: Global,
    ledger: &Ledger<D>,
    session: SessionNo,
    token: Token,
) -> Result<Answer, Refusal>
    ensures answers { AnswersSaid D.bytes session (Said.files_of_token token) ledger.now (reply_of result) ledger.now }
    ensures names { IfOk result (λ a. (view : View) × IsRecordedAs (shape_in ledger.now).views token view
        × TellsNames (needs view) (answer_of a)) }
    ensures due { has_hold (shape_in ledger.now).holds session token ≡ false → result ≡ Err NotHeld }
    ensures refusal { has_hold (shape_in ledger.now).holds session token ≡ true → IfErr result (λ e. e ≡ Memory) }
{
    let Some(view) = ledger.held_view(session, token) else {
        return Err(Refusal::NotHeld);
    };
    match view.files(alloc) {
        Ok(names) => {
            let mut names = names;
            names.sort_unstable();
            Ok(Answer::Names(names))
        }
        Err(AllocError) => Err(Refusal::Memory),
    }
}
