//! The least so many of what is offered, one after another.
ghost use Rattle.std.specs.Prelude.{◌≡◌, ◌++◌, List, [], ◌∷◌, length, take, false, AllPairs, OnOk, OnErr, IfOk, IfSome, IsTrue};
ghost use Rattle.cat_model.specs.Page.{first_ranked};
ghost use Rattle.cat_model.specs.Ranks.{AreApart, sorted};

use std::alloc::{AllocError, Global};
use std::marker::Model;

/// By how many items more than the limit a short page gathers at least, before they are put in order.
const LEAST_SPARE: usize = 16;

/// The least items, in the order of `T`, of all that were offered, at most as many as its limit; of equal items those
/// that were offered first.
///
/// It gathers up to twice as many as are wanted, and then puts them in order and drops the second half; from then on most
/// offers of a long scan cost one comparison, with the last item that would be wanted. Lucene keeps the same items in the
/// bounded `PriorityQueue` of its `TopFieldCollector`, which sifts each that comes in.
#[derive(Drop)]
pub struct Best<T> {
    limit: usize,
    items: Vec<T>,
    // So many at the front are in order.
    ready: usize,
}

impl<T> Model for Best<T> {
    ghost use Rattle.cat_search.specs.BestItems.{BestItems};

    ghost Value = { BestItems T };

    ghost view = { λ b. record { limit = b.limit; items = b.items.items; ready = b.ready } };
}

impl<T: Ord + Drop> Best<T> {
    ghost use Rattle.cat_search.specs.BestItems.{IsBestOf, less};

    /// Nothing is offered yet, and at most `limit` items will be kept.
    pub fn new(alloc: Global, limit: usize) -> Best<T>
        ensures limit { result.limit ≡ limit }
        ensures best { IsBestOf (less T.cmp) result [] }
    {
        Best {
            limit,
            items: Vec::new(alloc),
            ready: 0,
        }
    }

    /// The last item that is wanted of those that were put in order, where these are as many as are wanted: what doesn't
    /// come before it would be left out.
    pub(crate) fn last_if_full(&self) -> Option<&T>
        ensures { IfSome result (λ last. (offered : List T) (item : T) → less T.cmp item last.now ≡ false
            → IsBestOf (less T.cmp) self.now offered → IsBestOf (less T.cmp) self.now (offered ++ item ∷ [])) }
    {
        let last = self.limit.checked_sub(1)?;
        if self.ready < self.limit {
            return None;
        }
        let item = self.items.get(last)?;
        Some(item)
    }

    /// Whether the item would be left out: as many as are wanted are known not to come after it.
    fn is_beaten(&self, item: &T) -> bool
        ensures { IsTrue result → (offered : List T)
            → IsBestOf (less T.cmp) self.now offered → IsBestOf (less T.cmp) self.now (offered ++ item.now ∷ []) }
    {
        match self.last_if_full() {
            None => self.limit == 0,
            Some(last) => item.cmp(last).is_ge(),
        }
    }

    /// Puts the items in order, and drops those that aren't wanted.
    fn cut(&mut self) -> Result<(), AllocError>
        ensures limit { self.new.limit ≡ self.old.limit }
        ensures items { OnOk result (self.new.items ≡ take self.old.limit (sorted (less T.cmp) self.old.items)) }
        ensures ready { OnOk result (self.new.ready ≡ length self.new.items) }
        ensures unchanged { OnErr result (self.new ≡ self.old) }
    {
        self.items.sort()?;
        self.items.truncate(self.limit);
        self.ready = self.items.len();
        Ok(())
    }

    /// Whether as many are gathered as are wanted, and it isn't known which of them comes last.
    fn is_open(&self) -> bool {
        self.items.len() >= self.limit && self.ready < self.limit
    }

    /// Has it known which of the items that are wanted comes last, where as many are gathered: what is offered in the order of
    /// `T` needs no more of them.
    pub(crate) fn close(&mut self) -> Result<(), AllocError>
        ensures limit { self.new.limit ≡ self.old.limit }
        ensures best { OnOk result ((offered : List T) → IsBestOf (less T.cmp) self.old offered → IsBestOf (less T.cmp) self.new offered) }
    {
        if !self.is_open() {
            return Ok(());
        }
        self.cut()?;
        Ok(())
    }

    /// Gathers the item, and cuts where that makes as many as are gathered at most.
    fn gather(&mut self, item: T) -> Result<(), AllocError>
        ensures limit { self.new.limit ≡ self.old.limit }
        ensures best { OnOk result ((offered : List T)
            → IsBestOf (less T.cmp) self.old offered → IsBestOf (less T.cmp) self.new (offered ++ item ∷ [])) }
        ensures unchanged { OnErr result (self.new ≡ self.old) }
    {
        self.items.push(item)?;
        if self.items.len().saturating_sub(self.limit) < self.limit.max(LEAST_SPARE) {
            return Ok(());
        }
        match self.cut() {
            Ok(()) => Ok(()),
            Err(error) => {
                self.items.pop();
                Err(error)
            }
        }
    }

    /// Keeps the item if it is one of the least. Where memory fails the item is dropped, and all that was kept stays.
    pub fn offer(&mut self, item: T) -> Result<(), AllocError>
        ensures limit { self.new.limit ≡ self.old.limit }
        ensures best { OnOk result ((offered : List T)
            → IsBestOf (less T.cmp) self.old offered → IsBestOf (less T.cmp) self.new (offered ++ item ∷ [])) }
        ensures unchanged { OnErr result (self.new ≡ self.old) }
    {
        if self.is_beaten(&item) {
            return Ok(());
        }
        self.gather(item)
    }

    /// The items that are kept, the least first.
    pub fn into_items(mut self) -> Result<Vec<T>, AllocError>
        ensures first { IfOk result (λ v. (offered : List T) → IsBestOf (less T.cmp) self offered
            → v.items ≡ take self.limit (sorted (less T.cmp) offered)) }
        ensures ranked { IfOk result (λ v. (offered : List T) → IsBestOf (less T.cmp) self offered → AllPairs (AreApart (less T.cmp)) offered
            → v.items ≡ first_ranked (less T.cmp) offered self.limit) }
    {
        self.cut()?;
        Ok(self.items)
    }
}
