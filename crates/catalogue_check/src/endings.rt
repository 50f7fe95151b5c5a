//! How the program ends.
ghost use Rattle.std.specs.Prelude.{◌≡◌};
ghost use Rattle.catalogue_check.specs.Ended.{ending_of, status_of};

use cat_check::{Checked, Verdict};

/// The ways in which the program ends.
#[derive(Clone, Copy)]
pub(crate) enum Ending {
    /// The newest commit is whole.
    Whole,
    /// It isn't, or there is none.
    NotWhole,
    /// The arguments are wrong, or the folder or its newest commit can't be read.
    Unjudged,
}

impl Ending {
    /// By what is found of the newest commit.
    pub(crate) fn of(checked: &Checked) -> Ending
        ensures { result ≡ ending_of checked.now }
    {
        match &checked.newest {
            None => Ending::NotWhole,
            Some(report) => match report.verdict {
                Verdict::Whole(_) => Ending::Whole,
                Verdict::Damaged(_) => Ending::NotWhole,
                Verdict::Unread => Ending::Unjudged,
            },
        }
    }

    /// The exit status.
    pub(crate) fn status(self) -> u8
        ensures { result ≡ status_of self }
    {
        match self {
            Ending::Whole => 0,
            Ending::NotWhole => 1,
            Ending::Unjudged => 2,
        }
    }
}
