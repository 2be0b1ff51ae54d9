//! The bytes of a source, from the table of RFC 6143, section 7.7.2.

use super::spell_source;
use std::process::Abort;

#[test]
fn a_source_is_its_column_and_then_its_row(rt: HostRuntime) {
    let good = spell_source(0x0102, 0x0304) == [1, 2, 3, 4]
        && spell_source(65535, 0) == [0xFF, 0xFF, 0, 0]
        && spell_source(0, 255) == [0, 0, 0, 0xFF];
    assert!(rt; good);
}
