//! The sets that are kept beside a ledger.
ghost use Rattle.cat_commands.specs.sets.SetLaws.{EmptyAreRight, RecordedAreKnown, RememberedAreRight, SetsGoOn, SetsStay, UnsetAreKnown, WarmedAreRight};

/// No sets at all are right beside any ledger.
///
/// Lucene's `LRUQueryCache` is shared by indexes, and begins empty.
pub fn empty_are_right()
    ensures { EmptyAreRight }
{}

/// Sets stay right where a segment is new only under a number that none has had.
///
/// Lucene's `LRUQueryCache` keeps its sets by the cache key of a leaf, which no other leaf ever has.
pub fn sets_go_on()
    ensures { SetsGoOn }
{}

/// Sets stay right whatever line is answered.
///
/// Lucene's `LRUQueryCache` needs nobody to tell it of a flush or a merge; it forgets what a closed core had.
pub fn sets_stay()
    ensures { SetsStay }
{}

/// That any segment of a number is known says that no set stands under it, and that none in the making is over a segment of it.
///
/// In Lucene a cache key that nobody has yet can't be asked for.
pub fn unset_are_known()
    ensures { UnsetAreKnown }
{}

/// Sets stay right under each call that keeps known what was known, as a look or a note.
///
/// Lucene's `LRUQueryCache.get` moves a set and changes none.
pub fn remembered_are_right()
    ensures { RememberedAreRight }
{}

/// Sets stay right as they are made of segments that the ledger has.
///
/// Lucene's `LRUQueryCache.putIfAbsent` puts the set of a leaf under that leaf's key.
pub fn warmed_are_right()
    ensures { WarmedAreRight }
{}

/// Each segment of a recorded view is known, so that the sets that stand for it can be lent to a query over that view.
///
/// Lucene's `LRUQueryCache.CachingWrapperWeight` takes what is cached for a leaf.
pub fn recorded_are_known()
    ensures { RecordedAreKnown }
{}
