//! What was made of lists of segments, and is kept beside a ledger.
ghost use Rattle.cat_commands.specs.sets.KeptLaws.{AddedAreRight, KeptGoOn, KeptStay, NoneAreKept, RecordedAgree, UnkeptAreKnown};

/// Where nothing is kept, that is right beside any ledger.
///
/// Lucene's `GlobalOrdinals` of a top-level reader are made at the first use, and none stand before.
pub fn none_are_kept()
    ensures { NoneAreKept }
{}

/// What is kept stays right where a segment is new only under a number that none has had.
///
/// Lucene's `OrdinalMap` has an owner, the cache key of a reader, which no other reader ever has.
pub fn kept_go_on()
    ensures { KeptGoOn }
{}

/// What is kept stays right whatever line is answered.
///
/// Lucene's `OrdinalMap` needs nobody to tell it of a flush or a merge: the reader after it is another.
pub fn kept_stay()
    ensures { KeptStay }
{}

/// That any segment of a number is known says that no list has one of it.
///
/// In Lucene a cache key that nobody has yet can't be asked for.
pub fn unkept_are_known()
    ensures { UnkeptAreKnown }
{}

/// What is kept stays right as something is made of segments that the ledger has, and as the oldest goes.
///
/// Lucene's `DefaultSortedSetDocValuesReaderState` is made once for a reader, and kept by the caller.
pub fn added_are_right()
    ensures { AddedAreRight }
{}

/// Each segment of a recorded view is known, so that what is kept of lists with these numbers was made of these segments.
///
/// Lucene's `SortedSetDocValuesFacetCounts` refuses a state of another reader.
pub fn recorded_agree()
    ensures { RecordedAgree }
{}
