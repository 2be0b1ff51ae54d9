//! Texts of somebody else's, as they can be printed.

use std::fmt;

/// Prints bytes as text: printable ASCII characters as they are, and a backslash and any other byte
/// by its number, as `\x1b`. So no text of a peer's moves a terminal's cursor.
#[derive(Clone, Copy)]
pub struct Escaped<'a>(pub &'a [u8]);

impl fmt::Display for Escaped<'_> {
    fn fmt<F: fmt::Write>(&self, f: &mut fmt::Formatter<F>) -> fmt::Result {
        for byte in self.0 {
            if is_plain(*byte) {
                f.write_char(char::from(*byte))?;
            } else {
                write!(f, "\\x{byte:02x}")?;
            }
        }
        Ok(())
    }
}

// Whether a byte is printed as it is.
fn is_plain(byte: u8) -> bool {
    (b' '..=b'~').contains(&byte) && byte != b'\\'
}
