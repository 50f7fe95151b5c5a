//! Which file breaks which rule.
use cat_base::{Generation, SegNo};
use cat_directory::FileName;
use std::fmt;

/// A rule that a file of a commit breaks.
#[derive(Clone, Copy, Drop)]
pub enum Rule {
    /// The file isn't there.
    Absent,
    /// The device failed, so that nothing is known of the file.
    Unread,
    /// The bytes are no commit's.
    NoCommit,
    /// It is the file of the commit of this number.
    OtherCommit(Generation),
    /// The bytes are no segment's.
    NoSegment,
    /// It is the file of the segment of this number.
    OtherSegment(SegNo),
    /// The segment has other fields than the commit.
    OtherFields,
    /// The bytes are no file of live rows.
    NoLiveRows,
    /// It is the file of the live rows of this segment, as this commit wrote it.
    OtherLiveRows(SegNo, Generation),
    /// It is about so many rows, and the segment has as many as the second number says.
    OtherRows(u64, u64),
    /// It has so many bytes, and the texts of the segment's items as many as the second number says.
    OtherSize(u64, u64),
    /// The number of its first write isn't above that of the last one before it.
    NotRising,
    /// It has a write that is past the commit's token.
    PastToken,
    /// One of its live rows has the id of a live row before it.
    IdTwice,
    /// Each of the files is right by itself, and together they are no commit.
    Together,
}

impl fmt::Display for Rule {
    ghost use Rattle.std.specs.Prelude.{Some};
    ghost use Rattle.cat_check.specs.Faults.{rule_text};

    ghost output = { λ rule. Some (rule_text rule) };

    fn fmt<W: fmt::Write>(&self, f: &mut fmt::Formatter<W>) -> fmt::Result {
        match *self {
            Rule::Absent => write!(f, "it is absent"),
            Rule::Unread => write!(f, "the device failed"),
            Rule::NoCommit => write!(f, "its bytes are no commit's"),
            Rule::OtherCommit(generation) => write!(f, "it says that it is commit {generation}"),
            Rule::NoSegment => write!(f, "its bytes are no segment's"),
            Rule::OtherSegment(number) => write!(f, "it says that it is segment {number}"),
            Rule::OtherFields => write!(f, "it has other fields than the commit"),
            Rule::NoLiveRows => write!(f, "its bytes are no live rows'"),
            Rule::OtherLiveRows(number, generation) => {
                write!(
                    f,
                    "it says that it is of segment {number} and commit {generation}"
                )
            }
            Rule::OtherRows(rows, wanted) => write!(f, "it has {rows} rows in place of {wanted}"),
            Rule::OtherSize(size, wanted) => write!(f, "it has {size} bytes in place of {wanted}"),
            Rule::NotRising => write!(f, "its first write isn't behind those before it"),
            Rule::PastToken => write!(f, "it has a write past the commit's token"),
            Rule::IdTwice => write!(f, "it has a live row with the id of one before it"),
            Rule::Together => write!(f, "the files don't fit together"),
        }
    }
}

/// A file of a commit, and a rule that it breaks.
#[derive(Clone, Copy, Drop)]
pub struct Fault {
    pub file: FileName,
    pub rule: Rule,
}

impl fmt::Display for Fault {
    ghost use Rattle.std.specs.Prelude.{Some};
    ghost use Rattle.cat_check.specs.Faults.{fault_text};

    ghost output = { λ fault. Some (fault_text fault) };

    fn fmt<W: fmt::Write>(&self, f: &mut fmt::Formatter<W>) -> fmt::Result {
        let file = self.file;
        let rule = self.rule;
        write!(f, "{file}: {rule}")
    }
}
