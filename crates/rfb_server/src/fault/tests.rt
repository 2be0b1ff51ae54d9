//! What a fault prints as.

use super::*;
use std::alloc::{AllocError, Global};
use std::fmt::Display;
use std::result::Result;

const FAULTS: &[ServerFault] = &[
    ServerFault::BadBits,
    ServerFault::DepthTooLarge,
    ServerFault::NotTrueColour,
    ServerFault::BadMax,
    ServerFault::ShiftTooLarge,
    ServerFault::FieldsOverlap,
    ServerFault::UnknownMessage(1),
    ServerFault::BadVersion,
    ServerFault::VersionTooHigh,
    ServerFault::BadSecurityChoice,
    ServerFault::NoMemory,
];

const PRINTED: &str = "1 BadBits
2 DepthTooLarge
3 NotTrueColour
4 BadMax
5 ShiftTooLarge
6 FieldsOverlap
7 UnknownMessage
15 BadVersion
16 VersionTooHigh
17 BadSecurityChoice
30 NoMemory
24 Outside
";

// Appends each fault as it is printed, one a line.
fn print_each<T: Display>(faults: &[T], lines: &mut String) -> Result<(), AllocError> {
    for fault in faults {
        writeln!(lines, "{fault}")?;
    }
    Ok(())
}

#[test]
fn a_fault_prints_as_its_number_and_its_name(rt: HostRuntime) -> Result<(), AllocError> {
    let mut lines = String::new(rt.alloc());
    print_each(FAULTS, &mut lines)?;
    print_each(&[Outside], &mut lines)?;
    assert_eq!(rt; lines.as_str(), PRINTED);
    Ok(())
}

// Whether the text of each fault is its number, a space and its name.
fn begin_with_their_numbers(alloc: Global) -> Result<bool, AllocError> {
    let mut all = true;
    for fault in FAULTS {
        let text = format!(in alloc; "{fault}")?;
        let number = format!(in alloc; "{} ", fault.number())?;
        all = all && text.starts_with(number.as_str());
    }
    Ok(all)
}

#[test]
fn the_text_of_a_fault_begins_with_its_number(rt: HostRuntime) -> Result<(), AllocError> {
    assert!(rt; begin_with_their_numbers(rt.alloc())?);
    Ok(())
}
