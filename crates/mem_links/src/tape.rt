//! What was put on a link in memory, for a test to read from another thread.
use std::alloc::{AllocError, Global};
use std::sync::Arc;
use std::sync::atomic::{AtomicU64, Ordering};

/// Shares with a link in memory a row of atomic words, one for each byte that it has room for. No lock is taken, and no
/// contract says what is read.
#[derive(Drop)]
pub struct Tape {
    row: Arc<Vec<AtomicU64>, Global>,
}

impl Tape {
    /// Makes the two ends of a tape that has room for so many bytes.
    pub(crate) fn pair(alloc: Global, room: usize) -> Result<(Tape, Tape), AllocError> {
        let mut row = Vec::with_capacity(alloc, room)?;
        for _ in 0..room {
            row.push(AtomicU64::new(0))?;
        }
        let row = Arc::new(alloc, row)?;
        let other = Arc::try_clone(&row)?;
        Ok((Tape { row }, Tape { row: other }))
    }

    /// Writes the bytes at the places from `from` on.
    pub(crate) fn write(&self, from: usize, bytes: &[u8]) {
        let Some(words) = self.row.get(from..) else {
            return;
        };
        for (word, byte) in words.iter().zip(bytes) {
            word.store(u64::from(*byte) + 1, Ordering::SeqCst);
        }
    }

    /// Gives the byte that was put at place `i`, from 0, or `None` where none was put there.
    pub fn byte(&self, i: usize) -> Option<u8> {
        let word = self.row.get(i)?.load(Ordering::SeqCst);
        u8::try_from(word.checked_sub(1)?).ok()
    }
}
