//! What a fault prints as.

use super::*;
use std::alloc::{AllocError, Global};
use std::result::Result;

fn prints_as(alloc: Global, fault: HelloFault, text: &str) -> Result<bool, AllocError> {
    let printed = format!(in alloc; "{fault}")?;
    Ok(printed.as_str() == text)
}

#[test]
fn a_fault_prints_as_its_number_and_its_name(rt: HostRuntime) -> Result<(), AllocError> {
    for (fault, text) in [
        (HelloFault::BadVersion, "15 BadVersion"),
        (HelloFault::VersionTooHigh, "16 VersionTooHigh"),
        (HelloFault::BadSecurityChoice, "17 BadSecurityChoice"),
        (HelloFault::NoneNotOffered, "18 NoneNotOffered"),
        (HelloFault::Refused(5), "19 Refused"),
        (HelloFault::BadSecurityWord, "20 BadSecurityWord"),
        (HelloFault::SecurityFailed(5), "21 SecurityFailed"),
        (HelloFault::ScreenEmpty, "22 ScreenEmpty"),
        (HelloFault::ScreenTooLarge, "23 ScreenTooLarge"),
        (HelloFault::NoMemory, "30 NoMemory"),
    ] {
        assert!(rt; prints_as(rt.alloc(), fault, text)?);
    }
    Ok(())
}
