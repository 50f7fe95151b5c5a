//! How many rows inputs have.
ghost use Rattle.std.specs.Prelude.{◌≡◌, ◌≤◌, length};
ghost use Rattle.std.specs.List.{flat_map};
ghost use Rattle.cat_model.specs.Limits.{row_limit};
ghost use Rattle.cat_model.specs.Merged.{rows_of_all};
ghost use Rattle.cat_model.specs.View.{live_rows};
ghost use Rattle.cat_merge.specs.Walk.{AreInputs};

use crate::input::Input;

/// How many rows the inputs have.
pub(crate) fn rows_in(inputs: &[Input]) -> usize
    requires { length (rows_of_all inputs.now) ≤ row_limit }
    ensures count { result ≡ length (rows_of_all inputs.now) }
    ensures inputs { AreInputs inputs.now }
{
    let mut rows = 0;
    for input in inputs {
        // Its contract says that there is a truth value for each row.
        let _live = input.live();
        rows += input.segment().len();
    }
    rows
}

/// How many rows of the inputs are live.
pub(crate) fn live_rows_in(inputs: &[Input]) -> usize
    requires { length (flat_map live_rows inputs.now) ≤ row_limit }
    ensures { result ≡ length (flat_map live_rows inputs.now) }
{
    let mut rows = 0;
    for input in inputs {
        rows += input.live().count();
    }
    rows
}
