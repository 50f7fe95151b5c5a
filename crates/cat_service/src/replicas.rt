//! The laws of replicas: services that apply one log of writes, each from where it was opened.

ghost use Rattle.cat_service.specs.replicas.Laws.{LogsAreAppliedAlike, HeldReadsAgreeAcrossOpenings, HeldReadsAgreeOverOneLog, ReplicasAnswerAlike, CommitsBeginReplicas};
ghost use Rattle.cat_service.specs.replicas.Samples.{SamplesAreReplicas};

/// One log is applied alike. Take two runs, and in each a moment when both had accepted one number of writes, those of the
/// opened commit counted. If from there on the same PUT, DEL and DELW were said in one order, each got the same reply in both:
/// the same number, or the same refusal of its form. So the same writes were accepted.
///
/// A PUT, DEL or DELW that was answered 16, 30 or 40 doesn't count, in either run: it was not accepted, and may be said again.
/// What else was said, and under which sessions, doesn't matter; nor do the items, the commits and the views of either service.
/// By one line, two services under one schema were asked one thing (`hearing_is_one` of `cat_model`).
///
/// Lucene numbers writes too (`IndexWriter.addDocument` tells a sequence number), but only within one writer.
pub fn logs_are_applied_alike()
    ensures { LogsAreAppliedAlike }
{}

/// Reads under a held token have equal replies in two runs, also where the second was opened with the table of the first.
///
/// - *across*: the second run began under the schema of the first, with the table that this one has at some number of writes,
///   and with that number as its token; and the writes of the first up to t are those up to that number and then the second's
///   own.
/// - *of_one_log*: so it is of two runs that each began so with a table of one list of writes, be it at different numbers.
///
/// Both ask that no record of the start of those writes has a number past its token. That t lies within both runs is no
/// premise: a session holds it in both.
///
/// Lucene promises it of one searcher; that it holds between programs is our own claim.
pub fn held_reads_agree_across_openings()
    ensures across { HeldReadsAgreeAcrossOpenings }
    ensures of_one_log { HeldReadsAgreeOverOneLog }
{}

/// A replica answers alike.
///
/// - *alike*: it is opened with what another service had at some moment: its schema, its table, and its number of writes as the
///   token. As far as both were then asked to write the same, in one order, a read under a held token has the same reply in
///   both.
/// - *commits*: whoever opens a commit of a run, with the table and the number of writes that the run had before that COMMIT,
///   is opened so. That an opening finds these, `the_catalogue_holds` and `copies_open_alike` say.
///
/// A PUT, DEL or DELW that was answered 16, 30 or 40 is left aside, in either. The token has to be one of the writes that both
/// were asked; later each may have been told anything else.
///
/// Lucene's `ReplicaNode` shows what its primary does by copying segments; here only the writes are told.
pub fn replicas_answer_alike()
    ensures alike { ReplicasAnswerAlike }
    ensures commits { CommitsBeginReplicas }
{}

/// A pair of services that was made by hand is as the laws of replicas ask; and the refusals that these leave aside do part two
/// services. The runs are our own.
pub fn samples_are_replicas()
    ensures { SamplesAreReplicas }
{}
