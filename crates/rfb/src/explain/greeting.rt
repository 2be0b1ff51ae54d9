//! How a server's bytes begin: with a version and security types.

use crate::explain::naming::SecurityType;
use rfb_hello::{Offered, Version};
use std::io;
use std::io::Write;

/// How many bytes a ProtocolVersion has, RFC 6143 section 7.1.1.
pub const VERSION_SIZE: usize = 12;

/// Whether these bytes begin with a version, or a version with them.
pub fn has_version(bytes: &[u8]) -> bool {
    let count = bytes.len().min(VERSION_SIZE);
    let mut text = Version::V38.text();
    text[..count].copy_from_slice(&bytes[..count]);
    Version::try_from(text.as_slice()).is_ok()
}

/// Says which security types a server offers. One of 3.3 chooses the type by itself.
pub fn tell_types<N: Write>(offered: &Offered, notes: &mut N) -> io::Result<()> {
    write!(notes, "rfb: the server offers no security type 1 (None)")?;
    match offered {
        Offered::Nothing => {}
        Offered::Chosen(number) => write!(notes, ", but {}", SecurityType(*number))?,
        Offered::Listed(types) => tell_list(types.as_slice(), notes)?,
    }
    writeln!(notes)
}

// Says which types are on a list.
fn tell_list<N: Write>(types: &[u8], notes: &mut N) -> io::Result<()> {
    let mut before = ", but ";
    for number in types {
        write!(notes, "{before}{}", SecurityType(u32::from(*number)))?;
        before = ", ";
    }
    Ok(())
}
