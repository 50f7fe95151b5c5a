//! Where a merge stands among the rows of its inputs.
ghost use Rattle.std.specs.Prelude.{◌≡◌, ◌+◌};
ghost use Rattle.cat_merge.specs.Places.{passed_at, IsPlace, IsRowPlace};
ghost use Rattle.cat_merge.specs.Walk.{AreInputs};

use crate::input::Input;

/// A row of an input, by their indices; behind the last row, the index is how many inputs there are, and the row 0.
#[derive(Clone, Copy, Drop)]
pub(crate) struct Place {
    pub(crate) input: usize,
    pub(crate) row: usize,
}

impl Place {
    /// The first row of the first input.
    pub(crate) fn first() -> Place
        ensures { result ≡ record { input = 0; row = 0 } }
    {
        Place { input: 0, row: 0 }
    }

    /// The place behind this one.
    pub(crate) fn next(&self, inputs: &[Input]) -> Place
        requires place { IsRowPlace inputs.now self.now }
        requires inputs { AreInputs inputs.now }
        ensures place { IsPlace inputs.now result }
        ensures passed { passed_at inputs.now result ≡ passed_at inputs.now self.now + 1 }
    {
        if self.row + 1 < inputs[self.input].segment().len() {
            return Place {
                input: self.input,
                row: self.row + 1,
            };
        }
        Place {
            input: self.input + 1,
            row: 0,
        }
    }
}
