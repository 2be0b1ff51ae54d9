//! Lines, one after another.

use super::bench::{RED, bring, shown_in, take};
use crate::doors::Core;
use std::alloc::AllocError;

#[test]
fn a_screen_is_still_from_its_last_change_on(rt: HostRuntime) -> Result<(), AllocError> {
    let mut driver = shown_in(rt.alloc())?;
    bring(&mut driver, 1, b"timeout 9\nstill 1\n");
    driver.turned(1);
    bring(&mut driver, 0, RED);
    assert_eq!(rt; driver.turned(500), Some(1500));
    take(rt.alloc(), &mut driver, 9)?;
    driver.turned(1499);
    assert!(rt; take(rt.alloc(), &mut driver, 9)?.is_empty());
    driver.turned(1500);
    let told = take(rt.alloc(), &mut driver, 9)?;
    assert_eq!(rt; told.as_slice(), b"done 2\n".as_slice());
    Ok(())
}
