//! When segments are merged.
ghost use Rattle.std.specs.Prelude.{◌≡◌, IfSome, IfNone};
ghost use Rattle.cat_ledger_state.specs.cat_merge.Policy.{IsMergePolicy};

use cat_base::{
    GREATEST_MERGE_FACTOR, GREATEST_MERGE_MINIMUM, LEAST_MERGE_FACTOR, LEAST_MERGE_MINIMUM,
};
use std::marker::Model;

/// When segments are merged: how many at once, and how many rows a segment of the lowest level has at most. (Lucene:
/// `LogDocMergePolicy` with its `mergeFactor` and `minMergeDocs`.)
#[derive(Clone, Copy)]
pub struct MergePolicy {
    factor: u64,
    least: u64,
}

impl Model for MergePolicy {
    ghost use Rattle.cat_ledger_laws.specs.model.Plans as plans;
    ghost use Rattle.cat_ledger_state.specs.cat_merge.Policy.{IsMergePolicy};

    ghost Value = { plans.MergePolicy };

    ghost view = { λ p. record { factor = p.factor; least = p.least } };

    ghost inverse = { λ p. record { factor = p.factor; least = p.least } };

    ghost invariant = { λ p. IsMergePolicy p.factor p.least };
}

impl MergePolicy {
    /// The policy that merges `factor` segments at once, 2 to 100, and whose lowest level has segments of at most `least` rows,
    /// 1 to 100,000; none where a number is beyond these.
    pub fn of(factor: u64, least: u64) -> Option<MergePolicy>
        ensures some { IfSome result (λ p. p ≡ record { factor = factor; least = least }) }
        ensures none { IfNone result (IsMergePolicy factor least → ⊥) }
    {
        let factors = LEAST_MERGE_FACTOR..=GREATEST_MERGE_FACTOR;
        let minima = LEAST_MERGE_MINIMUM..=GREATEST_MERGE_MINIMUM;
        if factors.contains(&factor) && minima.contains(&least) {
            Some(MergePolicy { factor, least })
        } else {
            None
        }
    }

    /// How many segments are merged at once.
    pub fn factor(&self) -> u64
        ensures number { result ≡ self.now.factor }
        ensures policy { IsMergePolicy self.now.factor self.now.least }
    {
        self.factor
    }

    /// How many rows a segment of the lowest level has at most.
    pub fn least(&self) -> u64
        ensures { result ≡ self.now.least }
    {
        self.least
    }
}
