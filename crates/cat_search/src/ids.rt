//! The ids of hits, held by the entries that show them.
ghost use Rattle.std.specs.Prelude.{◌≡◌, [], OnOk};
ghost use Rattle.cat_search.specs.Ids.{id_text};

use arrayvec::ArrayString;
use cat_base::Text;
use std::alloc::{AllocError, Global};

/// Ids of at most so many bytes lie in the entry itself: a page takes memory for longer ones alone.
const SHORT_ID_BYTES: usize = 40;

/// The id of a hit.
#[derive(Drop)]
pub(crate) enum Id {
    /// It lies in the value.
    Short(ArrayString<SHORT_ID_BYTES>),
    /// It lies in memory of its own.
    Long(Text),
}

impl Id {
    /// An id of no byte, to be filled.
    pub(crate) fn empty() -> Id
        ensures { id_text result ≡ [] }
    {
        Id::Short(ArrayString::new())
    }

    /// Becomes a copy of the id where it was empty, and stays where it lies: to move bytes that were just copied would
    /// take longer than to copy them.
    pub(crate) fn fill(&mut self, alloc: Global, id: &str) -> Result<(), AllocError>
        requires { id_text self.old ≡ [] }
        ensures ok { OnOk result (id_text self.new ≡ id.now) }
    {
        if let Id::Short(short) = self
            && short.try_push_str(id).is_ok()
        {
            return Ok(());
        }
        *self = Id::Long(Text::from_str(alloc, id)?);
        Ok(())
    }

    /// The id, borrowed.
    pub(crate) fn as_str(&self) -> &str
        ensures { result.now ≡ id_text self.now }
    {
        match self {
            Id::Short(short) => short.as_str(),
            Id::Long(long) => long.as_str(),
        }
    }
}
