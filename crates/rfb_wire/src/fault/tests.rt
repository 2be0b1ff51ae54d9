//! What a fault prints as.

use super::*;
use std::result::Result;

#[test]
fn a_fault_prints_as_its_number_and_its_name(
    rt: HostRuntime,
) -> Result<(), std::alloc::AllocError> {
    for (fault, text) in [
        (WireFault::UnknownMessage(1), "7 UnknownMessage"),
        (WireFault::UnknownEncoding(-223), "8 UnknownEncoding"),
        (WireFault::RectOutside, "9 RectOutside"),
    ] {
        let printed = format!(in rt.alloc(); "{fault}")?;
        assert_eq!(rt; printed.as_str(), text);
    }
    Ok(())
}
