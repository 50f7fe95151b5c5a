//! What stands behind `OK`.

use crate::replies::news::News;
use cat_base::Text;
use cat_directory::FileName;
use cat_facets::{Facets, Page};

/// What stands behind `OK`, and on the further lines.
pub enum Answer {
    /// A number: of a write, of a commit, a token, or a count.
    Number(u64),
    /// A page of hits: how many are shown and how many there are, and a line for each that is shown (Lucene: a
    /// `TopFieldDocs`).
    Found(Page),
    /// Counts of labels: how many hits have a label and how many labels they have, and a line for each count that is told
    /// (Lucene: a `FacetResult`).
    Counts(Facets),
    /// The bytes of an item as they were put, or a dot where no item has the id (Lucene: what `StoredFields.document` gives).
    Source(Option<Vec<u8>>),
    /// Names of files: how many, and a line for each (Lucene: `IndexCommit.getFileNames`).
    Names(Vec<FileName>),
    /// The text of a commit, behind `=` (Lucene: `IndexCommit.getUserData`).
    CommitText(Text),
    /// What maintenance tells.
    News(News),
}

impl Drop for Answer {
    fn drop(self) {
        match self {
            Answer::Number(_) => {}
            Answer::Found(it) => drop(it),
            Answer::Counts(it) => drop(it),
            Answer::Source(it) => drop(it),
            Answer::Names(it) => drop(it),
            Answer::CommitText(it) => drop(it),
            Answer::News(it) => drop(it),
        }
    }
}
