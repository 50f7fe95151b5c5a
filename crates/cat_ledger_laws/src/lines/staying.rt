//! What an answered line leaves as it was.
ghost use Rattle.cat_ledger_laws.specs.lines.StayLaws.{SchemaStays, HoldsStay, HeldViewsStay, NumbersRiseByOne};

/// No line changes the fields.
///
/// Lucene's `FieldInfos` may get new fields; ours are the schema's.
pub fn schema_stays()
    ensures { SchemaStays }
{}

/// No line but OPEN and CLOSE changes the holds.
///
/// Lucene's `IndexReader.incRef` and `decRef` are the caller's own.
pub fn holds_stay()
    ensures { HoldsStay }
{}

/// A token that was held has the view that it had.
///
/// Lucene's `SearcherLifetimeManager.prune` drops views in use too; here it doesn't.
pub fn held_views_stay()
    ensures { HeldViewsStay }
{}

/// A line takes the number of one segment at most, and one generation.
///
/// Lucene's `SegmentInfos.counter` and `generation`.
pub fn numbers_rise()
    ensures { NumbersRiseByOne }
{}
