//! How all ends.

use super::bench::{BLACK, bring, shown_in, take};
use crate::doors::{Core, Host};
use crate::drive::DriveOutcome;
use std::alloc::AllocError;

#[test]
fn all_is_done_once_the_last_line_is(rt: HostRuntime) -> Result<(), AllocError> {
    let mut driver = shown_in(rt.alloc())?;
    // The last line lacks its newline.
    bring(&mut driver, 1, b"until-change");
    driver.ended(1);
    driver.turned(1);
    assert_eq!(rt; driver.outcome(), None);
    bring(&mut driver, 0, BLACK);
    driver.turned(2);
    assert_eq!(rt; driver.outcome(), Some(DriveOutcome::Done));
    assert!(rt; !driver.is_done());
    let told = take(rt.alloc(), &mut driver, 9)?;
    assert_eq!(rt; told.as_slice(), b"done 1\n".as_slice());
    assert!(rt; driver.is_done());
    Ok(())
}
