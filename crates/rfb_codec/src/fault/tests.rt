//! What a fault prints as.

use super::*;
use std::alloc::{AllocError, Global};
use std::result::Result;

fn prints_as(alloc: Global, fault: PaintFault, text: &str) -> Result<bool, AllocError> {
    let printed = format!(in alloc; "{fault}")?;
    Ok(printed.as_str() == text)
}

#[test]
fn a_fault_prints_as_its_number_and_its_name(rt: HostRuntime) -> Result<(), AllocError> {
    for (fault, text) in [
        (PaintFault::SubrectOutside, "10 SubrectOutside"),
        (PaintFault::NoBackground, "11 NoBackground"),
        (PaintFault::NoForeground, "12 NoForeground"),
        (PaintFault::BothColourBits, "13 BothColourBits"),
        (PaintFault::SourceOutside, "14 SourceOutside"),
    ] {
        assert!(rt; prints_as(rt.alloc(), fault, text)?);
    }
    Ok(())
}
