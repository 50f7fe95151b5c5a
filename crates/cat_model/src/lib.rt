//! The definitions that every contract of the service speaks of, and the laws about them.
#![tactic(auto)]

ghost use Rattle.cat_model.specs.Laws.{TableFollowsAfter, LaterWritesChangeNothing, RunsAreBounded, HeldReadIsOfItsTable, HeldReadsAgree, RunsGoOn, StepsKeepRuns, FreshStatesBeginRuns, GenerationsAreKept, LinesSayOneThing, SchemaLinesSayOneThing, EachTextIsAQueryOrNone, HearingIsOne, InputsAreHeardOneWay, WordsAreLongestRuns, WordsAreLoweredRuns};
ghost use Rattle.cat_model.specs.Talk.{AnswersOfAnyStartAreTalks, TalksOfOneStartAgree};
ghost use Rattle.cat_model.specs.TalkSample.{SampleIsJudged};
ghost use Rattle.cat_model.specs.QueryLaws.{QueriesAreRead, FaultsAreFound, TextsSpellOneQuery, FaultsHaveOnePlace, TextsAreJudged, SpelledTextsHaveNoFault};
ghost use Rattle.cat_model.specs.QuerySamples.{SamplesAreJudged};
ghost use Rattle.cat_model.specs.ViewLaws.{SourcesAreShown};
ghost use Rattle.cat_model.specs.SegmentLaws.{SegmentsAreSpelledAsLaid, CommitsAreToldByTheirBytes, LevelsAreOne, WindowsAreOne, MergedShowTheEnd, KeptAreSourced, OrdinalMapsAreOne};
ghost use Rattle.cat_model.specs.RankLaws.{RanksFollowOrder, AddedStandFirst, SortsOrderRecords};

pub use cat_base;

/// One more write makes of the table the table after it: the item of its id goes, and an item that
/// is put comes last.
///
/// Lucene's `IndexWriter.updateDocument` deletes the documents of a term and then adds the new one;
/// `deleteDocuments` only deletes.
pub fn table_follows_after()
    ensures { TableFollowsAfter }
{}

/// Writes that come after a token leave the table at the token as it is.
///
/// A reader of Lucene is a view of one point in time: an `IndexReader` never sees a change that is
/// made after it was opened.
pub fn later_writes_change_nothing()
    ensures { LaterWritesChangeNothing }
{}

/// In a fitting run some view is recorded, none past the number of writes, and so is each token that
/// a session holds.
///
/// The rule that nothing takes a held view away is our own. In Lucene's
/// `SearcherLifetimeManager`, `prune` drops a searcher from the records also while it is in use, and
/// only closes it after its last `release`.
pub fn runs_are_bounded()
    ensures { RunsAreBounded }
{}

/// A read under a held token is answered over the table at the token, whatever was written later,
/// unless want of memory or a failing device stops it.
///
/// This is what Lucene's `SearcherLifetimeManager` is for: `acquire` gives the very searcher that
/// `record` was given, so that a later page is of the same view.
pub fn held_read_is_of_its_table()
    ensures { HeldReadIsOfItsTable }
{}

/// Equal reads under a held token have equal replies in every two runs with one start whose accepted
/// writes agree up to the token, whatever other lines either run has.
///
/// Lucene promises it of one searcher; that it holds between two runs is our own claim.
pub fn held_reads_agree()
    ensures { HeldReadsAgree }
{}

/// A run goes on by each exchange that fits it. The notion of a run is our own.
pub fn runs_go_on()
    ensures { RunsGoOn }
{}

/// The reply of a step fits the run before it, and the state after it stands for the longer run.
/// So a service that only takes such steps answers a run. The machine is our own.
pub fn steps_keep_runs()
    ensures { StepsKeepRuns }
{}

/// A service as it is opened stands for the empty run from its own table. The machine is our own.
pub fn fresh_states_begin_runs()
    ensures { FreshStatesBeginRuns }
{}

/// Which commits stay is told by their generations: the newest, and each that has a snapshot.
///
/// Lucene's `KeepOnlyLastCommitDeletionPolicy` within a `SnapshotDeletionPolicy`.
pub fn generations_are_kept()
    ensures { GenerationsAreKept }
{}

/// A line says at most one thing, under one session. The protocol is our own.
pub fn lines_say_one_thing()
    ensures { LinesSayOneThing }
{}

/// A schema line says one factor, one minimum and one text of a schema. The protocol is our own.
pub fn schema_lines_say_one_thing()
    ensures { SchemaLinesSayOneThing }
{}

/// Under a schema, each text is a query or has the place of a fault, and one only. The rules are
/// our own.
pub fn each_text_is_a_query_or_none()
    ensures { EachTextIsAQueryOrNone }
{}

/// Under a schema, what is heard of a line is one thing: a command, a line without a form, or
/// nothing readable. The protocol is our own.
pub fn hearing_is_one()
    ensures { HearingIsOne }
{}

/// Where only schemas are read as such: whatever two directories tell, a service that a schema line
/// opens over each has one schema, and hears each line behind it in one way. Where neither has a file,
/// both are opened in one way, and differ in replies alone. The protocol is our own.
pub fn inputs_are_heard_one_way()
    ensures { InputsAreHeardOneWay }
{}

/// What answers lines is one talk: the lines that were read, each with its reply. The output is cut before
/// each line whose second word is OK or NO, and no text of an item or of a commit and no name of a file can
/// make it look otherwise. It asks that no item is read with a line feed, and none stands in what was opened.
///
/// The protocol is our own.
pub fn answers_are_talks()
    ensures { AnswersOfAnyStartAreTalks }
{}

/// Over bytes alone: two services that open one table, and what each was told and wrote. Where the
/// writes that were answered a number up to t have the same text in both, a read under t, be it a FIND, a
/// FACETS or a GET, has the same reply in both, for sessions that hold t, whatever else was said.
///
/// Lucene promises it of one searcher; that it holds between two runs is our own claim.
pub fn talks_agree()
    ensures { TalksOfOneStartAgree }
{}

/// A talk of seven lines is what a person judged it to be: which writes it shows, which session holds
/// what, and what it reads. The talk is our own.
pub fn talk_sample_is_judged()
    ensures { SampleIsJudged }
{}

/// The runs of a text are its longest runs of word characters, and nothing else.
///
/// The rule is our own, in the manner of the letter runs of Lucene's `SimpleAnalyzer`.
pub fn words_are_longest_runs()
    ensures { WordsAreLongestRuns }
{}

/// A word of a text is one of its longest runs, lowered, and each of these is a word.
///
/// The rule is our own; Lucene's `SimpleAnalyzer` lowers letters past ASCII too.
pub fn words_are_lowered_runs()
    ensures { WordsAreLoweredRuns }
{}

/// Reading a text as a query gives a query exactly where the text spells it by the grammar.
///
/// `+` and `-` before a clause are those of Lucene's classic `QueryParser`; the rest of the grammar
/// is our own.
pub fn queries_are_read()
    ensures { QueriesAreRead }
{}

/// Under a schema, reading a text as a query refuses it at a place exactly where the text has a
/// fault there. The faults and their places are our own.
pub fn faults_are_found()
    ensures { FaultsAreFound }
{}

/// A text spells at most one query. The grammar is our own.
pub fn texts_spell_one_query()
    ensures { TextsSpellOneQuery }
{}

/// Under a schema, a text has a fault in at most one place. The faults and their places are our own.
pub fn faults_have_one_place()
    ensures { FaultsHaveOnePlace }
{}

/// Under a schema, a text spells a query or has a fault, and not both. The rules are our own.
pub fn texts_are_judged()
    ensures judged { TextsAreJudged }
    ensures one_way { SpelledTextsHaveNoFault }
{}

/// A sample of a query text spells the query that is meant, and samples of each fault have their
/// place. The texts are our own.
pub fn samples_are_judged()
    ensures { SamplesAreJudged }
{}

/// For a strict order by which any two elements of a list differ, the first so many by rank are the
/// first of the list in that order, and there are as many as were asked for, or all.
///
/// A rank is how many elements come before; Lucene's `TopFieldCollector` keeps the same elements in a
/// queue.
pub fn ranks_follow_order<T>()
    ensures { RanksFollowOrder T }
{}

/// Of records in order of addition the first so many are those that stand first.
///
/// Lucene's `Sort.INDEXORDER` gives documents in the order of their numbers.
pub fn added_stand_first()
    ensures { AddedStandFirst }
{}

/// Every sort is a strict order, by which one of two records of different numbers comes before the
/// other: whatever the keys, no two hits tie.
///
/// Lucene breaks the ties of a `Sort` by document number too.
pub fn sorts_order_records()
    ensures { SortsOrderRecords }
{}

/// Where files hold the sources of a view's segments, the view shows the records that are read from them.
/// So a page of the view and a stored item speak of one list of records.
///
/// Lucene's `StoredFields` of a reader gives the documents that its searcher finds.
pub fn sources_are_shown()
    ensures { SourcesAreShown }
{}

/// The bytes of a segment's file are those of its layout, the parts that a file is written from and read into.
///
/// Lucene's `Codec` has a format for each such part; the layout is our own.
pub fn segments_are_spelled_as_laid()
    ensures { SegmentsAreSpelledAsLaid }
{}

/// Bytes are the file of one commit at most: of one version, with one text and one list of segments.
///
/// Lucene's `SegmentInfos` is read from such a file; the layout is our own.
pub fn commits_are_told_by_their_bytes()
    ensures { CommitsAreToldByTheirBytes }
{}

/// So many rows have one level, and segments of given sizes have one window, if they have any.
///
/// Lucene's `LogMergePolicy.findMerges` goes by levels too; how they are reckoned here is our own.
pub fn windows_are_one()
    ensures levels { LevelsAreOne }
    ensures windows { WindowsAreOne }
{}

/// A merged segment shows what its inputs show when the merge ends, whatever was deleted since it began.
///
/// Lucene's `IndexWriter.commitMerge` carries deletes that came meanwhile over to the merged segment.
pub fn merged_show_the_end()
    ensures { MergedShowTheEnd }
{}

/// The rows that a merge keeps are those of the records that it keeps, where no file with sources is too short.
///
/// Lucene's `StoredFieldsWriter.merge` copies the stored fields of the documents that stay.
pub fn kept_are_sourced()
    ensures { KeptAreSourced }
{}

/// A dictionary has one map at most to the ordinals of another one.
///
/// Lucene's `OrdinalMap` carries the ordinals of segments to those of all segments.
pub fn ordinal_maps_are_one()
    ensures { OrdinalMapsAreOne }
{}
