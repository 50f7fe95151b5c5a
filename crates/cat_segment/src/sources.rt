//! Where the texts that the items of a segment came as stand, one after the other.
ghost use Rattle.std.specs.Prelude.{◌≡◌, ◌+◌, ◌<◌, ◌≤◌, ◌^◌, ◌++◌, ◌∷◌, [], length, take, sum, IfOk, OnOk, OnErr, slice_index};

use std::alloc::{AllocError, Global};
use std::marker::Model;

/// The lengths of the texts that the rows' items came as, in bytes, held as where each text ends among them all.
///
/// Contracts see it as the list of the lengths.
pub(crate) struct Sources {
    // Where the text of each row ends; it begins where that of the row before it ends.
    ends: Vec<u32>,
}

impl Model for Sources {
    ghost use Rattle.std.specs.Prelude.{List, ℕ};
    ghost use Rattle.cat_segment.specs.Sources.{lengths_between, Rise};

    ghost Value = { List ℕ };

    ghost view = { λ s. lengths_between 0 s.ends.items };

    ghost invariant = { λ s. Rise 0 s.ends.items };
}

impl Drop for Sources {
    fn drop(self) {
        let Sources { ends } = self;
        drop(ends);
    }
}

impl Sources {
    /// No text, with memory for as many as this.
    pub(crate) fn with_capacity(alloc: Global, texts: usize) -> Result<Sources, AllocError>
        ensures ok { IfOk result (λ s. s ≡ []) }
    {
        Ok(Sources {
            ends: Vec::with_capacity(alloc, texts)?,
        })
    }

    /// Adds the text of the next row. An error and leaves the texts as they were.
    pub(crate) fn push(&mut self, len: u32) -> Result<(), AllocError>
        requires { sum self.old + len < 2 ^ 32 }
        ensures ok { OnOk result (self.new ≡ self.old ++ len ∷ []) }
        ensures err { OnErr result (self.new ≡ self.old) }
    {
        let start = self.offset(self.ends.len());
        self.ends.push(start + len)?;
        Ok(())
    }

    /// Where the text of the row begins: the sum of the lengths before it. That of the row after the last is where all
    /// texts end.
    pub(crate) fn offset(&self, row: usize) -> u32
        requires { row ≤ length self.now }
        ensures { result ≡ sum (take row self.now) }
    {
        if row == 0 { 0 } else { self.ends[row - 1] }
    }

    /// The length of the row's text.
    pub(crate) fn length(&self, row: usize) -> u32
        requires { row < length self.now }
        ensures { result ≡ slice_index self.now row }
    {
        let start = self.offset(row);
        self.ends[row] - start
    }
}
