//! Which segments are merged next, after Lucene's `LogDocMergePolicy`. How a level is reckoned, and which window is taken, are
//! our own.
ghost use Rattle.std.specs.Prelude.{ℕ, List, ◌+◌, ◌<◌, drop, length};
ghost use Rattle.cat_model.specs.Window.{IsLevel, IsWindow};
ghost use Rattle.cat_merge.specs.Policy.{IsMergePolicy};
ghost use Rattle.cat_merge.specs.Runs.{IsMergeRun, IsFirstFrom};

use cat_base::MAX_ROWS;

/// The segments of one level that stand side by side from some segment on, up to as many as a merge takes.
#[derive(Clone, Copy, Drop)]
struct Run {
    level: u32,
    count: usize,
    /// How many rows they have together.
    rows: u64,
}

/// Segments that can be merged.
#[derive(Clone, Copy, Drop)]
struct Candidate {
    level: u32,
    /// How many segments stand before them.
    index: usize,
}

/// The level of a segment of so many rows, deleted ones counted: the least `k` for which they are at most `minimum` times
/// `factor` to the power of `k`, so 0 for up to `minimum` rows (Lucene: the levels in `LogMergePolicy.findMerges`, which are
/// logarithms).
pub fn level_of(rows: u32, factor: u64, minimum: u64) -> u32
    requires { IsMergePolicy factor minimum }
    ensures { IsLevel factor minimum rows result }
{
    let mut level = 0;
    let mut most = minimum;
    while most < u64::from(rows) {
        most *= factor;
        level += 1;
    }
    level
}

/// The run from the segment of this index on; `next` is the run behind it.
fn run_from(sizes: &[u32], index: usize, factor: u64, minimum: u64, next: Run) -> Run
    requires policy { IsMergePolicy factor minimum }
    requires within { index < length sizes.now }
    requires next { IsMergeRun factor minimum (drop (index + 1) sizes.now) next }
    ensures { IsMergeRun factor minimum (drop index sizes.now) result }
{
    let level = level_of(sizes[index], factor, minimum);
    let rows = u64::from(sizes[index]);
    if next.count == 0 || next.level != level {
        return Run {
            level,
            count: 1,
            rows,
        };
    }
    if next.count < factor as usize {
        return Run {
            level,
            count: next.count + 1,
            rows: next.rows + rows,
        };
    }
    let last = u64::from(sizes[index + next.count]);
    Run {
        level,
        count: next.count,
        rows: next.rows + rows - last,
    }
}

/// The first of what can be merged from this index on: the segments of the run there, if they are enough and have few rows
/// enough, or else what comes first behind them.
fn first_from(run: Run, index: usize, factor: u64, behind: Option<Candidate>) -> Option<Candidate>
    requires { 0 < factor }
    ensures { (least : ℕ) (sizes : List ℕ) → IsMergeRun factor least (drop index sizes) run
        → IsFirstFrom factor least sizes (index + 1) behind → IsFirstFrom factor least sizes index result }
{
    if run.count < factor as usize || run.rows > MAX_ROWS as u64 {
        return behind;
    }
    match behind {
        Some(lower) if lower.level < run.level => behind,
        _ => Some(Candidate {
            level: run.level,
            index,
        }),
    }
}

/// The window of segments with so many rows each, deleted ones counted: how many segments stand before the `factor`
/// adjacent ones that are merged next, and `None` where none can be. They have one level ([`level_of`]), the lowest there
/// is, at most [`MAX_ROWS`](cat_base::MAX_ROWS) rows together, and stand before all others that can be merged (Lucene:
/// `LogMergePolicy.findMerges` with `mergeFactor` and `minMergeDocs`).
///
/// The time is linear in the number of segments, and it takes no memory.
pub fn window(sizes: &[u32], factor: u64, minimum: u64) -> Option<usize>
    requires { IsMergePolicy factor minimum }
    ensures { IsWindow factor minimum sizes.now result }
{
    // From the right to the left, so that of two runs of one level the left one is taken.
    let mut run = Run {
        level: 0,
        count: 0,
        rows: 0,
    };
    let mut first: Option<Candidate> = None;
    for index in (0..sizes.len()).rev() {
        run = run_from(sizes, index, factor, minimum, run);
        first = first_from(run, index, factor, first);
    }
    Some(first?.index)
}
