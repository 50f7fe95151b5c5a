//! How a ledger stands, as session 0 asks for it.
//!
//! Lucene's `IndexWriter.getDocStats` and `numRamDocs`, `SegmentReader.maxDoc` and `numDocs`.
ghost use Rattle.std.specs.Prelude.{◌≡◌, IfOk, IfErr, length, map};
ghost use Rattle.cat_base.specs.declared.refusal.Refusal.TheVariants.{Memory};
ghost use Rattle.cat_model.specs.Run as run;
ghost use Rattle.cat_ledger.specs.Answering.{AnswersCommand};
ghost use Rattle.cat_ledger.specs.Ledgers.{shape_in};
ghost use Rattle.cat_protocol.specs.replies.Reply.{answer_of, reply_of, stat_of};
ghost use Rattle.cat_commands.specs.ledger.Chores.{stat_in, stat_told};

use cat_base::Refusal;
use cat_cached_sets::filters::Filters;
use cat_directory::{Directory, Shelf};
use cat_ledger::Ledger;
use cat_protocol::replies::{Answer, News, SegmentStat, Stat};
use std::alloc::{AllocError, Global};

/// What is told of the segments.
fn segments_of(
    alloc: Global,
    told: &[cat_ledger::SegmentStat],
) -> Result<Vec<SegmentStat>, AllocError>
    ensures { IfOk result (λ v. v.items ≡ map stat_told told.now) }
{
    let mut segments = Vec::with_capacity(alloc, told.len())?;
    for segment in told {
        segments.push(SegmentStat {
            number: segment.number,
            rows: segment.rows,
            live: segment.live,
        })?;
    }
    Ok(segments)
}

/// How the service stands.
fn stat_of_ledger<D: Directory + Shelf>(
    alloc: Global,
    ledger: &Ledger<D>,
    filters: &Filters,
) -> Result<Stat, AllocError>
    ensures { IfOk result (λ stat. stat_of stat ≡ stat_in (length filters.now.cached) (shape_in ledger.now)) }
{
    let told = ledger.stat()?;
    let segments = segments_of(alloc, told.segments.as_slice())?;
    Ok(Stat {
        writes: told.writes,
        buffered: told.buffered,
        views: told.views,
        cached: filters.len(),
        pending: told.pending,
        segments,
    })
}

/// Answers a STAT of session 0.
pub(crate) fn tell_stat<D: Directory + Shelf>(
    alloc: Global,
    ledger: &Ledger<D>,
    filters: &Filters,
) -> Result<Answer, Refusal>
    ensures answers { AnswersCommand D.bytes 0 (run.Command.chore run.Chore.stat) ledger.now (reply_of result) ledger.now }
    ensures told { IfOk result (λ a. answer_of a ≡ run.Answer.news (run.News.state (stat_in (length filters.now.cached) (shape_in ledger.now)))) }
    ensures refusal { IfErr result (λ e. e ≡ Memory) }
{
    match stat_of_ledger(alloc, ledger, filters) {
        Ok(stat) => Ok(Answer::News(News::State(stat))),
        Err(AllocError) => Err(Refusal::Memory),
    }
}
