//! Tests of the crate as one who uses it sees it.

mod usage;
