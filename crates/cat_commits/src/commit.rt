//! What a commit says.
ghost use Rattle.std.specs.Prelude.{◌≡◌, ◌<◌, IfSome, unwrap_or};

use cat_base::{Generation, SegNo, Text, Token};
use cat_items::Schema;
use std::marker::Model;

/// A version of the layout of a commit's file.
#[derive(Clone, Copy, Drop)]
pub enum Version {
    /// It has no text. It is read, and isn't written any more.
    First,
    /// It has a text.
    Second,
}

/// A segment of a commit (Lucene: `SegmentCommitInfo`).
///
/// Contracts see it as the record of its number and of the number of the commit that wrote its live rows, 0 where all are
/// live.
#[derive(Clone, Copy, Drop)]
pub struct ListedSegment {
    number: SegNo,
    file: Generation,
}

impl Model for ListedSegment {
    ghost use Rattle.cat_model.specs.CommitFile as model;

    ghost Value = { model.ListedSegment };

    ghost view = { λ s. record { number = s.number; file = s.file } };

    ghost inverse = { λ s. record { number = s.number; file = s.file } };
}

impl ListedSegment {
    /// The segment of the number; and the commit that wrote the file of its live rows, if some of its rows aren't live. It asks
    /// for the number of a commit, which is at least 1.
    pub fn new(number: SegNo, live_file: Option<Generation>) -> Self
        requires { IfSome live_file (λ d. 0 < d) }
        ensures { result ≡ record { number = number; file = unwrap_or live_file 0 } }
    {
        ListedSegment {
            number,
            file: live_file.unwrap_or(0),
        }
    }

    /// What a file says of a segment, where 0 stands for no live file.
    pub(crate) fn of(number: SegNo, file: Generation) -> Self
        ensures { result ≡ record { number = number; file = file } }
    {
        ListedSegment { number, file }
    }

    /// The number of the segment.
    pub fn number(&self) -> SegNo
        ensures { result ≡ self.now.number }
    {
        self.number
    }

    /// The commit that wrote the file of its live rows, or `None` where all of its rows are live. (Lucene: `getDelGen`.)
    pub fn live_file(&self) -> Option<Generation>
        ensures file { unwrap_or result 0 ≡ self.now.file }
        ensures some { IfSome result (λ d. 0 < d) }
    {
        (self.file != 0).then_some(self.file)
    }

    /// The same, 0 for none.
    pub(crate) fn file(&self) -> Generation
        ensures { result ≡ self.now.file }
    {
        self.file
    }
}

/// A commit: what of the catalogue outlives the program (Lucene: `SegmentInfos`, and an `IndexCommit`).
///
/// Contracts see it as what its file says.
pub struct Commit {
    /// The version of its file. Only the second is written.
    pub version: Version,
    /// Its number. (Lucene: `getGeneration`.)
    pub generation: Generation,
    /// The number of writes that it takes in.
    pub token: Token,
    /// The number that the next segment gets. (Lucene: `counter`.)
    pub next_segment: SegNo,
    /// What who committed said of it. (Lucene: `getUserData`.)
    pub text: Text,
    /// The fields.
    pub schema: Schema,
    /// Its segments in order.
    pub segments: Vec<ListedSegment>,
}

impl Model for Commit {
    ghost use Rattle.cat_model.specs.CommitFile as model;
    ghost use Rattle.cat_commits.specs.Versions.{version_of};

    ghost Value = { model.CommitFile };

    ghost view = { λ c. record {
      version = version_of c.version;
      generation = c.generation;
      token = c.token;
      next = c.next_segment;
      text = c.text;
      schema = c.schema;
      segments = c.segments.items;
    } };
}

impl Drop for Commit {
    fn drop(self) {
        let Commit {
            version: _,
            generation: _,
            token: _,
            next_segment: _,
            text,
            schema,
            segments,
        } = self;
        drop(text);
        drop(schema);
        drop(segments);
    }
}
