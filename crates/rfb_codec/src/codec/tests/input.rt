//! A plain reading of bytes from the front.

use rfb_pixel::Format;

/// Bytes, how many of them are read, and whether what was asked for was there.
#[derive(Clone, Copy)]
pub(crate) struct Input<'a> {
    pub bytes: &'a [u8],
    pub at: usize,
    pub is_good: bool,
}

impl<'a> Input<'a> {
    pub fn of(bytes: &'a [u8]) -> Input<'a> {
        Input {
            bytes,
            at: 0,
            is_good: true,
        }
    }

    /// Whether all bytes were read, and no more was asked for.
    pub fn is_at_end(&self) -> bool {
        self.is_good && self.at == self.bytes.len()
    }

    /// What must be there.
    pub fn known<T: Copy>(&mut self, value: Option<T>, other: T) -> T {
        if value.is_none() {
            self.is_good = false;
        }
        value.unwrap_or(other)
    }

    pub fn byte(&mut self) -> u8 {
        let next = self.bytes.get(self.at).copied();
        self.at = self.at.wrapping_add(1);
        self.known(next, 0)
    }

    /// Two bytes, the high one first.
    pub fn pair(&mut self) -> u16 {
        let high = self.byte();
        u16::from_be_bytes([high, self.byte()])
    }

    pub fn pixel(&mut self, format: &Format) -> u32 {
        let mut field = [0; 4];
        let size = format.size();
        for n in 0..size {
            field[n] = self.byte();
        }
        format.take(&field[..size])
    }
}
