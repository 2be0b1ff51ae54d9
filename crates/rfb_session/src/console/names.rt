//! The names of faults.

use arrayvec::ArrayString;
use std::fmt::{Display, Write};

/// What a fault prints as. The longest has some twenty bytes.
pub(crate) fn name_of<F: Display>(fault: &F) -> ArrayString<80> {
    let mut name = ArrayString::new();
    let _ = write!(name, "{fault}");
    name
}
