//! What has come since the owner's last line ended, as far as a sentence of it wants.

use crate::owner::reader::length_of_line;
use crate::owner::stage::LINE_MAX;
use arrayvec::ArrayVec;

// One byte more than a line may have.
const KEPT: usize = LINE_MAX + 1;

/// The first of these bytes, and how many there are.
#[derive(Drop)]
pub struct Beginning {
    kept: ArrayVec<u8, KEPT>,
    count: u64,
}

impl Beginning {
    /// Nothing has come.
    pub fn new() -> Beginning {
        Beginning {
            kept: ArrayVec::new(),
            count: 0,
        }
    }

    /// More bytes come.
    pub fn take(&mut self, bytes: &[u8]) {
        let room = KEPT.saturating_sub(self.kept.len()).min(bytes.len());
        let _ = self.kept.try_extend_from_slice(&bytes[..room]);
        self.count = self.count.saturating_add(bytes.len() as u64);
    }

    /// The line ends, and another begins.
    pub fn clear(&mut self) {
        self.kept.clear();
        self.count = 0;
    }

    /// Whether nothing has come.
    pub fn is_empty(&self) -> bool {
        self.count == 0
    }

    /// The line itself, without its newline. Of one that is too long the end is missing.
    pub fn line(&self) -> &[u8] {
        let bytes = self.kept.as_slice();
        &bytes[..length_of_line(bytes)]
    }

    /// How many bytes came after its newline.
    pub fn after_line(&self) -> u64 {
        let line = self.line().len() as u64;
        self.count.saturating_sub(line).saturating_sub(1)
    }
}
