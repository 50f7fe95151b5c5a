//! A set of rows in the making.
ghost use Rattle.std.specs.Prelude.{◌≡◌, IfOk, OnErr};
ghost use Rattle.std.specs.Arc.{arc_value};
ghost use Rattle.cat_query.specs.View.{query_of};
ghost use Rattle.cat_cached_sets.specs.cache.Cached.{cache_key_of};
ghost use Rattle.cat_cached_sets.specs.cache.Warmed.{IsWarmStep};

use crate::cache::key::Key;
use cat_base::MAX_STEP_ROWS;
use cat_query::{DocSet, Query};
use cat_views::cat_segment::Segment;
use std::alloc::{AllocError, Global};
use std::marker::Model;
use std::sync::Arc;

/// How far a set in the making is.
#[derive(Drop)]
pub enum Warming {
    /// So many rows are passed in all, and some are left.
    Passed(usize),
    /// All rows are passed, and these match.
    Made(DocSet),
}

/// The set of a segment's rows that a query matches, in the making (Lucene: what `LRUQueryCache.cacheImpl` makes of a
/// `BulkScorer`, there in one go).
///
/// Contracts see it as the segment, the query, and how many of the segment's rows are passed.
#[derive(Drop)]
pub struct Warm {
    segment: Arc<Segment>,
    key: Key,
    passed: usize,
}

impl Model for Warm {
    ghost use Rattle.std.specs.Prelude.{◌≡◌, ◌≤◌, length};
    ghost use Rattle.std.specs.Arc.{arc_value};
    ghost use Rattle.std.specs.Coded.{codes};
    ghost use Rattle.cat_query.specs.View.{query_of};
    ghost use Rattle.cat_cached_sets.specs.cache.Coding.{query_code};
    ghost use Rattle.cat_cached_sets.specs.cache.Warmed as warmed;

    ghost Value = { warmed.Warm };

    ghost coded = { Prim.hlevel (codes, query_code) };

    ghost view = { λ w. record { segment = arc_value w.segment; query = query_of w.key.query; passed = w.passed } };

    ghost invariant = { λ w. (w.key.segment ≡ (arc_value w.segment).number) × (w.passed ≤ length (arc_value w.segment).rows) };
}

impl Warm {
    /// The set of the segment's rows that the query matches, of which no row is passed.
    pub fn begin(segment: Arc<Segment>, query: Query) -> Warm
        ensures { result ≡ record { segment = arc_value segment; query = query_of query; passed = 0 } }
    {
        let key = Key {
            segment: segment.number(),
            query,
        };
        Warm {
            segment,
            key,
            passed: 0,
        }
    }

    /// What the set is to stand under.
    pub fn key(&self) -> &Key
        ensures { cache_key_of result.now ≡ record { segment = self.now.segment.number; query = self.now.query } }
    {
        &self.key
    }

    /// Passes at most [`MAX_STEP_ROWS`] rows more, and answers the set with the last of them. Where memory is wanting nothing
    /// is passed. After the set, a further step answers it again.
    pub fn step(&mut self, alloc: Global) -> Result<Warming, AllocError>
        ensures ok { IfOk result (IsWarmStep self.old self.new) }
        ensures err { OnErr result (self.new ≡ self.old) }
    {
        let rows = self.segment.len();
        let left = rows - self.passed;
        if left > MAX_STEP_ROWS {
            self.passed += MAX_STEP_ROWS;
            return Ok(Warming::Passed(self.passed));
        }
        // Blocks of 64 rows at once cost less than rows one by one, so no part of the set is made before the last step.
        let set = self.key.query.matches(alloc, &self.segment)?;
        self.passed = rows;
        Ok(Warming::Made(set))
    }
}
