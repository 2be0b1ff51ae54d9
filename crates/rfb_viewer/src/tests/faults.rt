//! Faults and refusals as they are printed: a number and a name.

use super::*;
use crate::{CallFault, TextFault, ViewerFault};
use std::fmt::Display;

const FAULTS: &[ViewerFault] = &[
    ViewerFault::UnknownMessage(4),
    ViewerFault::UnknownEncoding(-223),
    ViewerFault::RectOutside,
    ViewerFault::SubrectOutside,
    ViewerFault::NoBackground,
    ViewerFault::NoForeground,
    ViewerFault::BothColourBits,
    ViewerFault::SourceOutside,
    ViewerFault::BadVersion,
    ViewerFault::NoneNotOffered,
    ViewerFault::Refused(2),
    ViewerFault::BadSecurityWord,
    ViewerFault::SecurityFailed(2),
    ViewerFault::ScreenEmpty,
    ViewerFault::ScreenTooLarge,
    ViewerFault::NoMemory,
];

const FAULTS_PRINTED: &str = "7 UnknownMessage
8 UnknownEncoding
9 RectOutside
10 SubrectOutside
11 NoBackground
12 NoForeground
13 BothColourBits
14 SourceOutside
15 BadVersion
18 NoneNotOffered
19 Refused
20 BadSecurityWord
21 SecurityFailed
22 ScreenEmpty
23 ScreenTooLarge
30 NoMemory
";

const REFUSALS: &[CallFault] = &[CallFault::NotReady, CallFault::Busy, CallFault::AreaOutside];

const TEXT_REFUSALS: &[TextFault] = &[TextFault::NotReady, TextFault::NoMemory];

const REFUSALS_PRINTED: &str = "25 NotReady
26 Busy
27 AreaOutside
25 NotReady
30 NoMemory
";

// Appends each fault as it is printed, one a line.
fn print_each<T: Display>(faults: &[T], lines: &mut String) -> Result<(), AllocError> {
    for fault in faults {
        writeln!(lines, "{fault}")?;
    }
    Ok(())
}

#[test]
fn a_fault_prints_its_number_and_its_name(rt: HostRuntime) -> Result<(), AllocError> {
    let mut lines = String::new(rt.alloc());
    print_each(FAULTS, &mut lines)?;
    assert_eq!(rt; lines.as_str(), FAULTS_PRINTED);
    Ok(())
}

#[test]
fn a_refusal_prints_its_number_and_its_name(rt: HostRuntime) -> Result<(), AllocError> {
    let mut lines = String::new(rt.alloc());
    print_each(REFUSALS, &mut lines)?;
    print_each(TEXT_REFUSALS, &mut lines)?;
    assert_eq!(rt; lines.as_str(), REFUSALS_PRINTED);
    Ok(())
}

// Whether the text of each fault is its number, a space and its name.
fn begin_with_their_numbers(alloc: Global) -> Result<bool, AllocError> {
    let mut all = true;
    for fault in FAULTS {
        let text = format!(in alloc; "{fault}")?;
        let number = format!(in alloc; "{} ", fault.number())?;
        all = all && text.starts_with(number.as_str());
    }
    Ok(all)
}

#[test]
fn the_text_of_a_fault_begins_with_its_number(rt: HostRuntime) -> Result<(), AllocError> {
    assert!(rt; begin_with_their_numbers(rt.alloc())?);
    Ok(())
}
