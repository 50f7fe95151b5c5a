//! Commits that were tried and refused.
ghost use Rattle.cat_ledger_laws.specs.shape.Tried.{BeginningsAreNoCommits, MakingIsApart, TrialsStay, TriedAreFound, TriedBegin, TriedStay};

use cat_directory::Holder;

/// A beginning of a commit's file says no commit, but the whole file.
///
/// Lucene's `SegmentInfos.readCommit` fails at the end of a torn file, as `CodecUtil.checkFooter` finds no footer.
pub fn beginnings_are_no_commits()
    ensures { BeginningsAreNoCommits }
{}

/// A commit that was tried under the next generation, and refused, leaves its own file, torn or whole, or nothing of it; and as long as it
/// leaves any, the files that it lists as they were, or not at all.
///
/// Lucene's `IndexWriter.prepareCommit`, which syncs what a commit lists before `finishCommit`.
pub fn tried_begin<D: Holder>()
    ensures { TriedBegin D.may_leave }
{}

/// So it stays, whatever calls come: none writes to a file whose number was taken, but to those of the merge in the making.
///
/// Lucene writes each file once.
pub fn tried_stay<D: Holder>()
    ensures { TriedStay D.may_leave }
{}

/// Who opens it after a crash finds the commit that was tried, and in each file that it lists what that held.
///
/// Lucene's `DirectoryReader.open`, which finds the last commit or one that was on its way.
pub fn tried_are_found<D: Holder>()
    ensures { TriedAreFound D.may_leave }
{}

/// What a commit of now lists isn't the merge's in the making, which goes on writing its files.
///
/// Lucene's `IndexWriter.commit` lists no segment of a merge that runs.
pub fn making_is_apart()
    ensures { MakingIsApart }
{}

/// So it stays over calls in a row, where at first no file could be left of a commit that wasn't tried yet.
///
/// Lucene's generations, of which none is given out twice.
pub fn trials_stay<D: Holder>()
    ensures { TrialsStay D.may_leave }
{}
