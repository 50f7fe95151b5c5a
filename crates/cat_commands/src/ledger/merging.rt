//! Merges, step by step, as session 0 asks for them.
//!
//! Lucene's `IndexWriter.maybeMerge` and `forceMerge(1)`.
ghost use Rattle.cat_directory.specs.Frames.{CountsFailures};
ghost use Rattle.std.specs.Prelude.{◌≡◌, IfErr, OnErr};
ghost use Rattle.cat_base.specs.declared.refusal.Refusal.TheVariants.{Damaged, Memory};
ghost use Rattle.cat_model.specs.Run as run;
ghost use Rattle.cat_ledger.specs.cat_ledger_state.Cores.{LacksInput, LacksToCopy, MayCopy};
ghost use Rattle.cat_ledger.specs.upkeep.News as merges;
ghost use Rattle.cat_ledger.specs.Answering.{AnswersCommand};
ghost use Rattle.cat_ledger.specs.Histories.{GoesOn};
ghost use Rattle.cat_ledger.specs.Ledgers.{Spares, device_in, policy_in, shape_in};
ghost use Rattle.cat_ledger.specs.Refusals.{HasUntoldInput, KeepsMerge, KeepsSegments};
ghost use Rattle.cat_protocol.specs.replies.Reply.{news_in_reply, reply_of};
ghost use Rattle.cat_commands.specs.ledger.Chores.{MayRefuseForce, MayRefuseMerge};

use cat_base::Refusal;
use cat_directory::{Directory, Shelf};
use cat_ledger::Ledger;
use cat_ledger::upkeep::MergeNews;
use cat_protocol::replies::{Answer, News};

/// What a step of a merge tells, as it is answered.
fn news_told(news: MergeNews) -> News
    ensures { news_in_reply result ≡ merges.news_of news }
{
    match news {
        MergeNews::Idle => News::Idle,
        MergeNews::Busy => News::Busy,
        MergeNews::Begun(segments) => News::BegunMerge(segments),
        MergeNews::Copied(rows) => News::Copied(rows),
        MergeNews::Done => News::Done,
    }
}

/// Answers a MERGE of session 0.
pub(crate) fn merge_step<D: Directory + Shelf>(ledger: &mut Ledger<D>) -> Result<Answer, Refusal>
    ensures answers { AnswersCommand D.bytes 0 (run.Command.chore run.Chore.merge) ledger.old (reply_of result) ledger.new }
    ensures refusal { IfErr result (MayRefuseMerge (policy_in ledger.old) (shape_in ledger.old)) }
    ensures reach { IfErr result (λ e. e ≡ Memory → MayCopy (D.bytes (device_in ledger.old)) (shape_in ledger.old).merging) }
    ensures lacks { IfErr result (λ e. e ≡ Damaged → LacksToCopy (D.bytes (device_in ledger.old)) (shape_in ledger.old).merging
        × LacksInput (D.bytes (device_in ledger.old)) (shape_in ledger.old).merging) }
    ensures untold { IfErr result (λ e. e ≡ Damaged → HasUntoldInput (D.bytes (device_in ledger.old)) (shape_in ledger.old).merging) }
    ensures fails { CountsFailures D.can_fail D.fault_count (device_in ledger.old) (device_in ledger.new) result }
    ensures crash { Spares D.may_leave ledger.old ledger.new }
    ensures goes { GoesOn D.bytes D.may_leave ledger.old ledger.new }
    ensures segments { OnErr result (KeepsSegments (shape_in ledger.old) (shape_in ledger.new)) }
{
    match ledger.merge_step() {
        Ok(news) => Ok(Answer::News(news_told(news))),
        Err(refusal) => Err(refusal),
    }
}

/// Answers a FORCE of session 0.
pub(crate) fn force<D: Directory + Shelf>(ledger: &mut Ledger<D>) -> Result<Answer, Refusal>
    ensures answers { AnswersCommand D.bytes 0 (run.Command.chore run.Chore.force) ledger.old (reply_of result) ledger.new }
    ensures refusal { IfErr result (MayRefuseForce (shape_in ledger.old)) }
    ensures fails { CountsFailures D.can_fail D.fault_count (device_in ledger.old) (device_in ledger.new) result }
    ensures crash { Spares D.may_leave ledger.old ledger.new }
    ensures goes { GoesOn D.bytes D.may_leave ledger.old ledger.new }
    ensures stays { OnErr result (KeepsMerge (shape_in ledger.old) (shape_in ledger.new)) }
    ensures segments { OnErr result (KeepsSegments (shape_in ledger.old) (shape_in ledger.new)) }
{
    match ledger.force() {
        Ok(news) => Ok(Answer::News(news_told(news))),
        Err(refusal) => Err(refusal),
    }
}
