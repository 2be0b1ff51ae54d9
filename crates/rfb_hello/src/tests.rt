//! Tests of both ends.

mod cuts;
pub(crate) mod ends;
mod long_texts;
mod offered;
mod pieces;
