//! What a driver is made with.

ghost use Rattle.rfb.specs.Drive.{IsDriveSetup};

use crate::defaults::{copy_of, viewer_setup};
use crate::driving::DriveOptions;
use crate::sharing::hosting::millis;
use rfb_session::drive::DriverSetup;

/// The setup that options ask for. Their numbers are seconds, and its are milliseconds.
pub fn setup_of(options: &DriveOptions<'_>) -> DriverSetup
    ensures { IsDriveSetup options.now result }
{
    let encodings = copy_of(&options.wants.encodings);
    DriverSetup {
        viewer: viewer_setup(options.wants.format, encodings),
        limit: millis(options.timeout),
        tells_changes: options.tells_changes,
    }
}
