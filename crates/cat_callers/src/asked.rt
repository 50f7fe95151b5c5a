//! Which queries were asked not long ago.
use std::alloc::{AllocError, Global};
use std::hash::{DefaultHasher, Hasher};
use std::sync::atomic::{AtomicU64, Ordering};

/// How many queries are remembered at most.
const REMEMBERED: usize = 1024;

/// Which queries were asked not long ago, by a session in whatever thread: the hash of the last one at each of some places. No lock
/// is taken for it. Only what a page costs hangs on it, and no page. (Lucene: the ring of `UsageTrackingQueryCachingPolicy`.)
#[derive(Drop)]
pub struct Asked {
    hashes: Vec<AtomicU64>,
}

impl Asked {
    /// None was asked. It takes 8 KB.
    pub fn new(alloc: Global) -> Result<Asked, AllocError> {
        let mut hashes = Vec::with_capacity(alloc, REMEMBERED)?;
        for _ in 0..REMEMBERED {
            hashes.push(AtomicU64::new(0))?;
        }
        Ok(Asked { hashes })
    }

    /// Whether the text was asked not long ago. From now on it was.
    pub(crate) fn again(&self, text: &str) -> bool {
        let mut hasher = DefaultHasher::new();
        hasher.write(text.as_bytes());
        let hash = hasher.finish();
        let Some(place) = self.hashes.get(hash as usize % REMEMBERED) else {
            return false;
        };
        // A line of the processor's caches that many threads read alone stays in all of them.
        if place.load(Ordering::SeqCst) == hash {
            return true;
        }
        place.store(hash, Ordering::SeqCst);
        false
    }
}
