//! The theorem: what holds of every two calls of `serve`, by the bytes that they read and wrote.

ghost use Rattle.cat_model.specs.Calls.{CallsAreOpened, HeldReadsAgreeInCalls};
ghost use Rattle.cat_model.specs.Found.{CallsAreFound, ReadsAgreeAfterwards};
ghost use Rattle.cat_items.specs.Reading.{json};
ghost use Rattle.cat_directory.specs.Names.{by_names};
ghost use Rattle.cat_service.specs.theorem.Merges.{MergesGoOn};
ghost use Rattle.cat_service.specs.theorem.MissingSets.{MissingSetsAreTold};
ghost use Rattle.cat_service.specs.theorem.Openings.{DirectoriesOpenOneWay};

use cat_commands::cat_protocol::{
    live_rows_are_told_by_their_bytes, segments_are_told_by_their_bytes,
};
use cat_directory::{Directory, Shelf};

/// The catalogue holds. Take what any two calls of `serve` read and wrote, each over a directory of any kind.
///
/// - *opened*: each call that answered a first line began somewhere, by what its directory tells of its files: at the newest
///   commit, or empty.
/// - *agree*: where two began with one schema, one table and one number of writes, a read under a token that a session holds
///   is answered alike in both, if the writes up to that token have the same texts; whatever else either was told.
/// - *found*: what a call leaves, also in a crash, opens at its last COMMIT that was answered OK, or else at the commit that it
///   had opened, with its text, with the number of writes before it as token, and with the table at that token; or so at a
///   COMMIT that was refused since, but not for its text; or there was none.
/// - *afterwards*: where the next call found that commit under the same schema, a read under its token is answered alike in
///   both calls, in sessions that hold it.
///
/// *Found* asks for a kind of directory that always tells of its files, as the one in memory does. Of a folder, which doesn't,
/// the others hold, but for the text of a stored item: GET may answer another one of its length, if somebody changed the file.
///
/// (Lucene: `SearcherLifetimeManager`, whose searchers stay as they were recorded; `DirectoryReader.open` of an `IndexCommit`.)
pub fn the_catalogue_holds<D: Directory + Shelf, E: Directory + Shelf>()
    ensures opened { CallsAreOpened json (by_names D.bytes D.may_leave D.can_fail D.fault_count) }
    ensures agree { HeldReadsAgreeInCalls json (by_names D.bytes D.may_leave D.can_fail D.fault_count)
        (by_names E.bytes E.may_leave E.can_fail E.fault_count) }
    ensures found { CallsAreFound json (by_names D.bytes D.may_leave D.can_fail D.fault_count)
        (by_names E.bytes E.may_leave E.can_fail E.fault_count) }
    ensures afterwards { ReadsAgreeAfterwards json (by_names D.bytes D.may_leave D.can_fail D.fault_count)
        (by_names E.bytes E.may_leave E.can_fail E.fault_count) }
{
    segments_are_told_by_their_bytes();
    live_rows_are_told_by_their_bytes();
}

/// Directories that tell of each of their files, and tell the same, begin with one table by schema lines of one schema: what
/// *agree* asks of how two calls began.
pub fn directories_open_one_way()
    ensures { DirectoriesOpenOneWay }
{
    segments_are_told_by_their_bytes();
    live_rows_are_told_by_their_bytes();
}

/// What the causes of replies leave a call of `serve` to tell of cached sets, where PUT, REFRESH, OPEN and FIND come first and are
/// each answered OK. A segment stands then that has the item, the query of the FIND is noted, and no set of rows is cached.
///
/// - *warm*: a WARM that comes next isn't told that there is nothing to do.
/// - *stat*: a STAT that comes next counts no set.
/// - *again*: where the call opened neither an item nor a segment, and two WARMs make a set and store it, and then a PUT of another
///   id and a REFRESH are answered OK, a WARM isn't told that there is nothing to do: the second segment's set is missing.
///
/// So a service that tells every WARM `idle`, or every one once each query has some set, has no causes for it, whatever it tells
/// of its segments.
///
/// The news of WARM are our own; Lucene caches what its `UsageTrackingQueryCachingPolicy` saw often enough, and tells nobody.
pub fn missing_sets_are_told<D: Directory + Shelf>()
    ensures { MissingSetsAreTold json (by_names D.bytes D.may_leave D.can_fail D.fault_count) }
{}

/// What the causes of replies leave a call of `serve` to tell of merges, of lines in a row:
///
/// - *copied*: of two MERGEs that pass rows, with no merge begun between, the second tells more rows. So none tells `copied 256` twice.
/// - *begun*: no merge is begun, by a MERGE or a FORCE, while one is in the making: one that was begun is told `done` first, or a MERGE
///   is refused, which may have given it up.
/// - *passed*: where a STAT before `begun` tells of segments that each have rows, no `done` comes before a `copied`.
/// - *made*: where a merge of such segments is told `done`, others stand than before: if STATs before `begun` and
///   before `done` tell of the same segments, one behind `done` tells of others.
///
/// So a service that tells `begun` or `copied` each time, or that merges nothing and tells `done`, has no causes for it.
///
/// The news of MERGE are our own; Lucene merges in threads of its own, by a `ConcurrentMergeScheduler`, and tells nobody how far.
pub fn merges_go_on<D: Directory + Shelf>()
    ensures { MergesGoOn json (by_names D.bytes D.may_leave D.can_fail D.fault_count) }
{}
