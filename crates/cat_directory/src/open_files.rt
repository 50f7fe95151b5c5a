//! The files that were opened last, which stay open for the next read.
ghost use Rattle.std.specs.Prelude.{◌<◌, ◌≤◌, length, IfOk, IfSome};

use crate::FileName;
use std::alloc::{AllocError, Global};

/// How many files stay open: a view whose merges are kept up has fewer segments.
const MAX_OPEN_FILES: usize = 64;

/// A file that is open to be read, and how many bytes it had when it was opened.
#[derive(Drop)]
pub(crate) struct OpenedFile<F: Drop> {
    pub(crate) name: FileName,
    pub(crate) file: F,
    pub(crate) size: u64,
}

/// At most [`MAX_OPEN_FILES`] files that are open, of which the one that was opened first is closed first. (Lucene: the
/// `IndexInput`s that a `SegmentReader` holds open.)
#[derive(Drop)]
pub(crate) struct OpenFiles<F: Drop> {
    // It has room for all of them from the beginning.
    pub(crate) files: Vec<OpenedFile<F>>,
    ghost few: { length files.items ≤ 64 },
}

impl<F: Drop> OpenFiles<F> {
    /// None is open.
    pub(crate) fn new(alloc: Global) -> Result<Self, AllocError> {
        let mut files = Vec::new(alloc);
        files.reserve(MAX_OPEN_FILES)?;
        Ok(OpenFiles { files })
    }

    /// Where the file of the name stands among those that are open, if it does.
    pub(crate) fn index_of(&self, name: FileName) -> Option<usize>
        ensures within { IfSome result (λ i. i < length self.now.files.items) }
    {
        self.files.iter().position(|opened| opened.name == name)
    }

    /// Keeps the file open, and says where it stands.
    pub(crate) fn keep(&mut self, opened: OpenedFile<F>) -> Result<usize, AllocError>
        ensures within { IfOk result (λ i. i < length self.new.files.items) }
    {
        if self.files.len() >= MAX_OPEN_FILES {
            self.files.remove(0);
        }
        let index = self.files.len();
        self.files.push(opened)?;
        Ok(index)
    }

    /// Closes the file of the name, where it is open: what is read of it next is what it has then.
    pub(crate) fn close(&mut self, name: FileName) {
        if let Some(index) = self.index_of(name) {
            self.files.remove(index);
        }
    }
}
