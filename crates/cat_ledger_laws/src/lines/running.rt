//! Runs of the service.
ghost use Rattle.cat_ledger_laws.specs.lines.RunLaws.{AnswersAreSteps, OpenedStand, EmptyStand};

/// What answers a line for every ledger that memory carries is a step of every run that led to it: a reply fits that run, and what is
/// left stands for the longer one.
pub fn answers_are_steps()
    ensures { AnswersAreSteps }
{}

/// Memory that was opened at a commit stands for a run that begins with the commit's token and text.
///
/// Lucene's `IndexWriter` opens at the newest commit, and `getLiveCommitData` is that commit's.
pub fn opened_stand()
    ensures { OpenedStand }
{}

/// Memory without records stands for a run that begins with none.
///
/// Lucene's `IndexWriter` with `OpenMode.CREATE`.
pub fn empty_stand()
    ensures { EmptyStand }
{}
