//! Sets of rows for the cache, made step by step as session 0 asks for them.
//!
//! Lucene's `LRUQueryCache`, which makes a set while a query runs.
ghost use Rattle.std.specs.Prelude.{◌≡◌, ◌≢◌, IfOk, IfErr, Err};
ghost use Rattle.cat_base.specs.declared.refusal.Refusal.TheVariants.{Line as NoForm, Memory};
ghost use Rattle.cat_model.specs.Lines.{Said};
ghost use Rattle.cat_model.specs.Run as run;
ghost use Rattle.cat_model.specs.View.{segments_of};
ghost use Rattle.cat_cached_sets.specs.filters.Known.{FiltersRemember, FiltersRememberBelow};
ghost use Rattle.cat_cached_sets.specs.filters.Steps.{IsLeftByStep};
ghost use Rattle.cat_ledger.specs.Answering.{AnswersSaid};
ghost use Rattle.cat_ledger.specs.Ledgers.{shape_in};
ghost use Rattle.cat_protocol.specs.replies.Reply.{answer_of, news_in_reply, reply_of};
ghost use Rattle.cat_commands.specs.ledger.Chores.{IsWarmTold, warm_told};

use cat_base::{Refusal, SessionNo};
use cat_cached_sets::filters::{Filters, WarmNews};
use cat_directory::{Directory, Shelf};
use cat_ledger::Ledger;
use cat_protocol::replies::{Answer, News};
use std::alloc::AllocError;

/// What a step of warming tells, as it is answered.
fn news_told(news: WarmNews) -> News
    ensures { news_in_reply result ≡ warm_told news }
{
    match news {
        WarmNews::Idle => News::Idle,
        WarmNews::Begun => News::BegunWarming,
        WarmNews::Warmed(rows) => News::Warmed(rows),
        WarmNews::Stored => News::Stored,
    }
}

/// Answers a WARM: one step of the set that is made for the cache. Without one in the making it begins that of the first noted
/// query and segment of the list whose set is missing, and tells of it, or that nothing is to be done; else it passes at most
/// [`MAX_STEP_ROWS`](cat_base::MAX_STEP_ROWS) rows, and with the last of them the set stands in the cache. (Lucene:
/// `LRUQueryCache.cacheImpl`, in one go.)
///
/// A set in the making is over a segment of the list: the end of a merge that takes its segment out gives it up (see
/// [`maintain`](crate::ledger::maintain)).
///
/// [`Refusal::Line`] for any session but 0, which comes first and changes nothing; else [`Refusal::Memory`] alone, after which
/// the set in the making may have passed its last rows without being stored: the next step stores it. The ledger isn't changed.
pub fn warm<D: Directory + Shelf>(
    ledger: &Ledger<D>,
    filters: &mut Filters,
    session: SessionNo,
) -> Result<Answer, Refusal>
    ensures answers { AnswersSaid D.bytes session (Said.chore run.Chore.warm) ledger.now (reply_of result) ledger.now }
    ensures foreign { session ≢ 0 → (result ≡ Err NoForm) × (filters.new ≡ filters.old) }
    ensures told { IfOk result (λ a. IsWarmTold (shape_in ledger.now) filters.old filters.new (answer_of a)) }
    ensures refusal { session ≡ 0 → IfErr result (λ e. (e ≡ Memory) × IsLeftByStep filters.old filters.new) }
    ensures known { FiltersRemember (segments_of (shape_in ledger.now).leaves) filters.old filters.new }
    ensures below { FiltersRememberBelow (segments_of (shape_in ledger.now).leaves) filters.old filters.new }
{
    if session != 0 {
        return Err(Refusal::Line);
    }
    match filters.step(ledger.leaves()) {
        Ok(news) => Ok(Answer::News(news_told(news))),
        Err(AllocError) => Err(Refusal::Memory),
    }
}
