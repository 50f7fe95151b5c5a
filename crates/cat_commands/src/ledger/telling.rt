//! The commands that tell of kept commits, and change nothing.
//!
//! Lucene's `IndexCommit.getUserData` and `getFileNames`.
ghost use Rattle.std.specs.Prelude.{◌≡◌, ℕ, IfOk, Err, None, Some};
ghost use Rattle.cat_base.specs.declared.refusal.Refusal.TheVariants.{Memory, NoCommit};
ghost use Rattle.cat_model.specs.CommitFile.{CommitFile, commit_needs};
ghost use Rattle.cat_model.specs.Lines.{Said};
ghost use Rattle.cat_ledger_laws.specs.lines.ReadLaws.{kept_under};
ghost use Rattle.cat_ledger.specs.Answering.{AnswersSaid, TellsNames};
ghost use Rattle.cat_ledger.specs.Ledgers.{shape_in};
ghost use Rattle.cat_protocol.specs.replies.Reply.{answer_of, reply_of};

use cat_base::{Generation, Refusal, Text};
use cat_directory::{Directory, Shelf};
use cat_ledger::Ledger;
use cat_protocol::replies::Answer;
use std::alloc::{AllocError, Global};

/// Answers a NOTE: the text of a kept commit. (Lucene: `IndexCommit.getUserData`.)
///
/// [`Refusal::NoCommit`] where none of the generation is kept; else [`Refusal::Memory`].
pub fn text_of_commit<D: Directory + Shelf>(
    alloc: Global,
    ledger: &Ledger<D>,
    generation: Generation,
) -> Result<Answer, Refusal>
    ensures answers { (session : ℕ) → AnswersSaid D.bytes session (Said.text_of_commit generation) ledger.now (reply_of result) ledger.now }
    ensures due { kept_under (shape_in ledger.now).commits generation ≡ None → result ≡ Err NoCommit }
{
    let text = match ledger.commit_note(generation) {
        Ok(text) => text,
        Err(refusal) => return Err(refusal),
    };
    match Text::from_str(alloc, text) {
        Ok(text) => Ok(Answer::CommitText(text)),
        Err(AllocError) => Err(Refusal::Memory),
    }
}

/// Answers a FILES of a commit: the names of the files that the kept commit needs, in byte order. A copy of these, with the
/// same schema, opens at it. (Lucene: `IndexCommit.getFileNames`.)
///
/// [`Refusal::NoCommit`] where none of the generation is kept; else [`Refusal::Memory`].
pub fn files_of_commit<D: Directory + Shelf>(
    ledger: &Ledger<D>,
    generation: Generation,
) -> Result<Answer, Refusal>
    ensures answers { (session : ℕ) → AnswersSaid D.bytes session (Said.files_of_commit generation) ledger.now (reply_of result) ledger.now }
    ensures names { IfOk result (λ a. (c : CommitFile) × (kept_under (shape_in ledger.now).commits generation ≡ Some c)
        × TellsNames (commit_needs c) (answer_of a)) }
    ensures due { kept_under (shape_in ledger.now).commits generation ≡ None → result ≡ Err NoCommit }
{
    match ledger.commit_files(generation) {
        Ok(names) => {
            let mut names = names;
            names.sort_unstable();
            Ok(Answer::Names(names))
        }
        Err(refusal) => Err(refusal),
    }
}
