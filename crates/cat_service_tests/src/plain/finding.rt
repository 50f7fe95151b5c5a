//! Pages of hits over the records of a view: each record is looked at, and all hits are sorted.
ghost use Rattle.std.specs.Prelude.{◌≡◌, ◌==◌, ◌&&◌, Bool, Ok, Err, map, option_map, IfOk, MatchOption, OnOk};
ghost use Rattle.std.specs.List.{list_any};
ghost use Rattle.std.specs.Ordering.{is_lt, nat_cmp, ordering_then};
ghost use Rattle.cat_model.specs.Answer.{Found, answer, can_sort, has_mark, is_sort_kind};
ghost use Rattle.cat_model.specs.Page.{before, comes_before, decided, first_ranked, key, key_cmp, key_in, page_of, rest};
ghost use Rattle.cat_model.specs.Query as model;
ghost use Rattle.cat_search.specs.Keys.{key_of};
ghost use Rattle.cat_search.specs.Sorts.{sort_of};
ghost use Rattle.cat_search.specs.cat_items.Contents.{field_content_of};
ghost use Rattle.cat_search.specs.cat_items.Kinds.{field_kind_of};
ghost use Rattle.cat_search.specs.cat_query.View.{query_of};
ghost use Rattle.cat_service_tests.specs.plain.Exchange.{TellsFound, find_of};
ghost use Rattle.cat_service_tests.specs.plain.Pages.{key_order, key_ref_of, shown_by};
ghost use Rattle.cat_service_tests.specs.plain.Tables.{NumbersRise};

use crate::plain::counting::hits_of;
use crate::plain::pages::{Entry, KeyRef, Page};
use crate::plain::record::Record;
use cat_base::{MAX_PAGE, Refusal, WriteNo};
use cat_items::{FieldValue, Kind, Schema, kind_of};
use cat_query::Query;
use cat_search::{Ask, Key, Sort};
use std::alloc::{AllocError, Global};
use std::cmp::Ordering;

/// Whether one sorts by fields of the kind.
fn is_sorted(kind: Option<Kind>) -> bool
    ensures { result ≡ is_sort_kind (option_map field_kind_of kind) }
{
    matches!(kind, Some(Kind::Number | Kind::Keyword))
}

/// Whether one can sort so.
fn can_sort(schema: &Schema, sort: Sort<'_>) -> bool
    ensures { result ≡ can_sort schema.now (sort_of sort.entry) }
{
    match sort {
        Sort::Added => true,
        Sort::Rising(field) | Sort::Falling(field) => is_sorted(kind_of(schema.fields(), field)),
    }
}

/// Whether a record has the number.
fn has_number(records: &[Record], number: WriteNo) -> bool
    ensures { result ≡ list_any (λ r. r.number == number) records.now }
{
    for record in records {
        if record.number() == number {
            return true;
        }
    }
    false
}

/// Whether the mark is the number of a record. So it is where there is none.
fn has_mark(records: &[Record], mark: Option<WriteNo>) -> bool
    ensures { result ≡ has_mark records.now mark }
{
    match mark {
        None => true,
        Some(number) => has_number(records, number),
    }
}

/// Why the ask gets no page, whatever its query is.
fn fault_in(schema: &Schema, records: &[Record], ask: Ask<'_>) -> Option<Refusal>
    ensures { MatchOption result
        ((q : model.Query) → answer schema.now records.now (find_of ask.entry (Ok q))
        ≡ Ok (Found.page (page_of records.now q (sort_of ask.entry.sort) ask.entry.after ask.entry.count)))
        (λ e. (q : model.Query) → answer schema.now records.now (find_of ask.entry (Ok q)) ≡ Err e) }
{
    if ask.count > MAX_PAGE as u64 {
        return Some(Refusal::Count);
    }
    if !can_sort(schema, ask.sort) {
        return Some(Refusal::SortField);
    }
    if !has_mark(records, ask.after) {
        return Some(Refusal::Mark);
    }
    None
}

/// The value as a sort key, if it is one.
fn key_in(value: Option<&FieldValue>) -> Option<KeyRef<'_>>
    ensures { option_map key_ref_of result ≡ key_in (option_map (λ v. field_content_of v.now) value.entry) }
{
    match value {
        Some(FieldValue::Number(Some(number))) => Some(KeyRef::Number(*number)),
        Some(FieldValue::Keyword(Some(text))) => Some(KeyRef::Keyword(text)),
        _ => None,
    }
}

/// The sort key of the record, if it has one.
fn key_of<'a>(sort: Sort<'_>, hit: &'a Record) -> Option<KeyRef<'a>>
    ensures { option_map key_ref_of result ≡ key (sort_of sort.entry) hit.now }
{
    match sort {
        Sort::Added => None,
        Sort::Rising(field) | Sort::Falling(field) => key_in(hit.item().value(field)),
    }
}

/// How the keys compare: numbers as numbers, and keywords by bytes.
fn compare_keys(a: KeyRef<'_>, b: KeyRef<'_>) -> Ordering
    ensures { result ≡ key_cmp (key_ref_of a.entry) (key_ref_of b.entry) }
{
    match (a, b) {
        (KeyRef::Number(a), KeyRef::Number(b)) => a.cmp(&b),
        (KeyRef::Keyword(a), KeyRef::Keyword(b)) => a.cmp(b),
        (KeyRef::Number(_), KeyRef::Keyword(_)) => Ordering::Less,
        (KeyRef::Keyword(_), KeyRef::Number(_)) => Ordering::Greater,
    }
}

/// The same under the sort.
fn compare_by(sort: Sort<'_>, a: KeyRef<'_>, b: KeyRef<'_>) -> Ordering
    ensures { result ≡ key_order (sort_of sort.entry) (key_ref_of a.entry) (key_ref_of b.entry) }
{
    match sort {
        Sort::Added | Sort::Rising(_) => compare_keys(a, b),
        Sort::Falling(_) => compare_keys(a, b).reverse(),
    }
}

/// The same where keys may be missing: these stand last, both ways.
fn compare_last(sort: Sort<'_>, a: Option<KeyRef<'_>>, b: Option<KeyRef<'_>>) -> Ordering
    ensures { (tie : Bool) → decided result tie
        ≡ comes_before (key_order (sort_of sort.entry)) (option_map key_ref_of a.entry) (option_map key_ref_of b.entry) tie }
{
    match (a, b) {
        (Some(a), Some(b)) => compare_by(sort, a, b),
        (Some(_), None) => Ordering::Less,
        (None, Some(_)) => Ordering::Greater,
        (None, None) => Ordering::Equal,
    }
}

/// How records compare whose keys compare so: by their numbers where these tie.
fn compare_ties(by_key: Ordering, a: WriteNo, b: WriteNo) -> Ordering
    ensures { result ≡ ordering_then by_key (nat_cmp a b) }
{
    by_key.then(a.cmp(&b))
}

/// How the records compare.
fn compare(sort: Sort<'_>, a: &Record, b: &Record) -> Ordering
    ensures { is_lt result ≡ before (sort_of sort.entry) a.now b.now }
{
    let by_key = compare_last(sort, key_of(sort, a), key_of(sort, b));
    compare_ties(by_key, a.number(), b.number())
}

/// Whether the record is the one of the mark, and comes before the hit.
fn is_mark_before(sort: Sort<'_>, mark: WriteNo, marked: &Record, hit: &Record) -> bool
    ensures { result ≡ ((marked.now.number == mark) && before (sort_of sort.entry) marked.now hit.now) }
{
    marked.number() == mark && compare(sort, marked, hit).is_lt()
}

/// Whether the mark comes before the hit.
fn is_behind(records: &[Record], sort: Sort<'_>, mark: WriteNo, hit: &Record) -> bool
    ensures { result ≡ list_any (λ m. (m.number == mark) && before (sort_of sort.entry) m hit.now) records.now }
{
    for record in records {
        if is_mark_before(sort, mark, record, hit) {
            return true;
        }
    }
    false
}

/// Keeps the hits that the mark comes before, and all without a mark.
fn keep_behind(hits: &mut Vec<Record>, records: &[Record], ask: Ask<'_>)
    ensures { hits.new.items ≡ rest (sort_of ask.entry.sort) records.now ask.entry.after hits.old.items }
{
    if let Some(mark) = ask.after {
        hits.retain(|hit| is_behind(records, ask.sort, mark, hit));
    }
}

/// Keeps the first so many in the order of the sort, in that order.
fn keep_first(hits: &mut Vec<Record>, sort: Sort<'_>, count: usize) -> Result<(), AllocError>
    requires { NumbersRise hits.old.items }
    ensures { OnOk result (hits.new.items ≡ first_ranked (before (sort_of sort.entry)) hits.old.items count) }
{
    hits.sort_by(|a, b| compare(sort, a, b))?;
    hits.truncate(count);
    Ok(())
}

/// The key in memory of its own.
fn to_key(key: KeyRef<'_>) -> Result<Key, AllocError>
    ensures { IfOk result (λ k. key_of k ≡ key_ref_of key.entry) }
{
    match key {
        KeyRef::Number(number) => Ok(Key::Number(number)),
        KeyRef::Keyword(text) => Ok(Key::Keyword(text.copy()?)),
    }
}

/// The hit as a page shows it.
fn entry_of(sort: Sort<'_>, hit: &Record) -> Result<Entry, AllocError>
    ensures { IfOk result (λ e. e ≡ shown_by (sort_of sort.entry) hit.now) }
{
    let key = match key_of(sort, hit) {
        Some(key) => Some(to_key(key)?),
        None => None,
    };
    let id = hit.item().id_text().copy()?;
    Ok(Entry {
        number: hit.number(),
        id,
        key,
    })
}

/// The hits as a page shows them.
fn entries_of(alloc: Global, sort: Sort<'_>, hits: &[Record]) -> Result<Vec<Entry>, AllocError>
    ensures { IfOk result (λ v. v.items ≡ map (shown_by (sort_of sort.entry)) hits.now) }
{
    let mut entries = Vec::with_capacity(alloc, hits.len())?;
    for hit in hits {
        entries.push(entry_of(sort, hit)?)?;
    }
    Ok(entries)
}

/// The first hits of the query behind the mark, at most so many, and how many hits it has at all.
fn page_of(
    alloc: Global,
    records: &[Record],
    query: &Query,
    ask: Ask<'_>,
) -> Result<Page, AllocError>
    requires { NumbersRise records.now }
    ensures { IfOk result (λ p. p ≡ page_of records.now (query_of query.now) (sort_of ask.entry.sort) ask.entry.after ask.entry.count) }
{
    let mut hits = hits_of(alloc, records, query)?;
    let total = hits.len();
    keep_behind(&mut hits, records, ask);
    keep_first(&mut hits, ask.sort, ask.count as usize)?;
    let entries = entries_of(alloc, ask.sort, hits.as_slice())?;
    Ok(Page { total, entries })
}

/// The first hits of the query behind the mark, at most so many.
///
/// Refuses a count above the limit of a page with `Refusal::Count`, then a field that can't be sorted by with
/// `Refusal::SortField`, then the mark of no record with `Refusal::Mark`; want of memory comes last.
pub(crate) fn find_in(
    alloc: Global,
    schema: &Schema,
    records: &[Record],
    query: Query,
    ask: Ask<'_>,
) -> Result<Page, Refusal>
    requires { NumbersRise records.now }
    ensures { TellsFound (answer schema.now records.now (find_of ask.entry (Ok (query_of query)))) result }
{
    match fault_in(schema, records, ask) {
        Some(refusal) => Err(refusal),
        None => Ok(page_of(alloc, records, &query, ask)?),
    }
}

/// Why a FIND gets no page where memory is wanting for its query: what is wrong with the count, the sort or the mark, or
/// else the want of memory.
pub(crate) fn refusal_in(schema: &Schema, records: &[Record], ask: Ask<'_>) -> Refusal
    ensures { (q : model.Query) → TellsFound (answer schema.now records.now (find_of ask.entry (Ok q))) (Err result) }
{
    match fault_in(schema, records, ask) {
        Some(refusal) => refusal,
        None => Refusal::Memory,
    }
}
