//! What a fault prints as.

use super::*;
use std::result::Result;

#[test]
fn a_fault_prints_as_its_number_and_its_name(
    rt: HostRuntime,
) -> Result<(), std::alloc::AllocError> {
    for (fault, text) in [
        (FormatFault::BadBits, "1 BadBits"),
        (FormatFault::DepthTooLarge, "2 DepthTooLarge"),
        (FormatFault::NotTrueColour, "3 NotTrueColour"),
        (FormatFault::BadMax, "4 BadMax"),
        (FormatFault::ShiftTooLarge, "5 ShiftTooLarge"),
        (FormatFault::FieldsOverlap, "6 FieldsOverlap"),
    ] {
        let printed = format!(in rt.alloc(); "{fault}")?;
        assert_eq!(rt; printed.as_str(), text);
    }
    Ok(())
}
