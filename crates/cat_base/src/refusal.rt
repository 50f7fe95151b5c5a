//! Why a call was refused, with the number that the line protocol gives each cause.
ghost use Rattle.std.specs.Prelude.{◌≡◌};
ghost use Rattle.cat_base.specs.Refusals.{number_of};

use std::alloc::{AllocError, AllocFailed};
use std::fmt;
use thiserror::Error;

/// Why a call was refused. Shown, it is its number in the line protocol and a sentence.
///
/// 10 to 16 are about what was given, 20 to 29 about what it named, 30, 31 and 40 about the machine.
#[derive(Clone, Copy, Debug, Drop, PartialEq, Eq, Error)]
pub enum Refusal {
    /// 10: the line has no form of the protocol, or its command is not served.
    Line,
    /// 11: the text of an item or of a schema is no JSON.
    Json,
    /// 12: an item has a member that is neither `id` nor a field of the schema.
    Member,
    /// 13: a value of an item has not its field's kind, an item has not the catalogue's fields, or a schema is wrong or
    /// is not the one that the commit was made under.
    Kind,
    /// 14: an id is missing or has the wrong form.
    Id,
    /// 15: an item, a keyword, a label or a list of labels is longer than its limit.
    Large,
    /// 16: the next number of a write, a segment or a commit would pass [`LAST_NUMBER`](crate::LAST_NUMBER), or as many
    /// segments or snapshots stand as may.
    Spent,
    /// 20: the session does not hold the view that the token names.
    NotHeld,
    /// 21: no view is recorded under the token; it may have been pruned.
    Gone,
    /// 22: as many views are recorded as may be, and sessions hold all of them.
    Full,
    /// 23: the mark is not the number of a record of the held view.
    Mark,
    /// 24: the text is no query. The number is the place of the fault, in bytes from the query's beginning.
    Query(usize),
    /// 25: more entries were asked for than [`MAX_PAGE`](crate::MAX_PAGE).
    Count,
    /// 26: there is no commit, or none is kept under the generation.
    NoCommit,
    /// 27: the commit has no snapshot.
    NoSnapshot,
    /// 28: the field to sort by is not a number or keyword field of the schema.
    SortField,
    /// 29: the dimension to count is not a facet field of the schema.
    NotFacet,
    /// 30: a call of the directory or shelf failed. What it left is said where the refusal comes.
    Device,
    /// 31: a file, or the bytes given for one, is absent, cut short, or not what is written there.
    Damaged,
    /// 40: memory was asked for and refused.
    Memory,
}

impl Refusal {
    /// The number of the cause in the line protocol, 10 to 40.
    pub fn number(&self) -> u8
        ensures { result ≡ number_of self.now }
    {
        match self {
            Refusal::Line => 10,
            Refusal::Json => 11,
            Refusal::Member => 12,
            Refusal::Kind => 13,
            Refusal::Id => 14,
            Refusal::Large => 15,
            Refusal::Spent => 16,
            Refusal::NotHeld => 20,
            Refusal::Gone => 21,
            Refusal::Full => 22,
            Refusal::Mark => 23,
            Refusal::Query(_) => 24,
            Refusal::Count => 25,
            Refusal::NoCommit => 26,
            Refusal::NoSnapshot => 27,
            Refusal::SortField => 28,
            Refusal::NotFacet => 29,
            Refusal::Device => 30,
            Refusal::Damaged => 31,
            Refusal::Memory => 40,
        }
    }

    /// What is shown of the cause: its number and a sentence.
    fn sentence(&self) -> &'static str {
        match self {
            Refusal::Line => "10: the line is no command of the protocol",
            Refusal::Json => "11: the text is not JSON",
            Refusal::Member => "12: a member of the item is not a field of the schema",
            Refusal::Kind => "13: a value has the wrong kind",
            Refusal::Id => "14: the id is missing or has the wrong form",
            Refusal::Large => "15: an item, keyword, label or list of labels is too large",
            Refusal::Spent => "16: the last number is used up, or a limit is reached",
            Refusal::NotHeld => "20: the session does not hold this token",
            Refusal::Gone => "21: no view is recorded under this token",
            Refusal::Full => "22: all recorded views are held, and there is no room for another",
            Refusal::Mark => "23: the mark is not a record of the held view",
            Refusal::Query(_) => "24: the query cannot be read at byte",
            Refusal::Count => "25: more than 1000 entries were asked for",
            Refusal::NoCommit => "26: there is no such commit",
            Refusal::NoSnapshot => "27: the commit has no snapshot",
            Refusal::SortField => "28: the sort needs a number or keyword field",
            Refusal::NotFacet => "29: the dimension is not a facet field",
            Refusal::Device => "30: the storage device failed",
            Refusal::Damaged => "31: a file is damaged or missing",
            Refusal::Memory => "40: out of memory",
        }
    }
}

impl fmt::Display for Refusal {
    // Written by hand over a table of sentences, since a format of each cause's own takes four times as long to prove.
    fn fmt<W: fmt::Write>(&self, f: &mut fmt::Formatter<W>) -> fmt::Result {
        match self {
            Refusal::Query(place) => write!(f, "{} {place}", self.sentence()),
            _ => f.write_str(self.sentence()),
        }
    }
}

/// What growing a list, copying a text or sharing by `Arc::try_clone` answers becomes [`Refusal::Memory`].
impl From<AllocError> for Refusal {
    ghost use Rattle.std.specs.Prelude.{◌≡◌};
    ghost use Rattle.cat_base.specs.declared.refusal.Refusal.TheVariants.{Memory};

    ghost from_gives = { λ _ e. e ≡ Memory };

    fn from(_refused: AllocError) -> Refusal {
        Refusal::Memory
    }
}

/// What `push`, `Arc::new` and other calls that hand their value back answer becomes [`Refusal::Memory`]; the value is
/// dropped.
impl<T: Drop> From<AllocFailed<T>> for Refusal {
    ghost use Rattle.std.specs.Prelude.{◌≡◌};
    ghost use Rattle.cat_base.specs.declared.refusal.Refusal.TheVariants.{Memory};

    ghost from_gives = { λ _ e. e ≡ Memory };

    fn from(_refused: AllocFailed<T>) -> Refusal {
        Refusal::Memory
    }
}
