//! What holds of all lines of a rig, with nothing to run.

ghost use Rattle.std.specs.Prelude.{◌≡◌, ℕ, List, None};
ghost use Rattle.rfb_session.specs.console.Time.{IsBefore};
ghost use Rattle.rfb_session.specs.declared.drive.drive_line.DriveLine.{DriveLine as ALine};
ghost use Rattle.rfb_session.specs.declared.drive.driver.Driver.{Driver as ADriver};
ghost use Rattle.rfb_session.specs.declared.drive.driver.task.Task.{Task as ATask};
ghost use Rattle.rfb_session.specs.declared.drive.words.Place.{Place as APlace};
ghost use Rattle.rfb_session.specs.doors.Events.{Event, Runs};
ghost use Rattle.rfb_session.specs.drive.driver.DriveHistory.{IsRun};
ghost use Rattle.rfb_session.specs.drive.driver.DriveLaws.{IsQuietBefore, IsSince, buttons_after};
ghost use Rattle.rfb_session.specs.drive.driver.Acts.{acts_of};
ghost use Rattle.rfb_session.specs.drive.driver.Steps.{DriverSteps};
ghost use Rattle.rfb_session.specs.drive.driver.Tasks.{due};

use crate::drive::Rig;

/// After the messages of a line no button is down, whatever the line.
pub fn no_button_stays_down()
    ensures { (at : APlace) (said : ALine) → buttons_after 0 (acts_of at said) ≡ 0 }
{}

/// Before the time at which the line that is under way is due, it is neither done by time alone nor
/// late.
pub fn nothing_is_slept_past()
    ensures { (begun limit time : ℕ) (task : ATask) → IsSince begun time task →
        IsBefore time (due begun limit task) → IsQuietBefore begun limit time task }
{}

/// The rig's bytes, however they are cut, are lines. Each is run in order and once, at a turn at
/// which no other is under way, as long as all goes on.
pub fn lines_are_run_however_they_come<R: Rig + Drop>()
    ensures { (old new : ADriver R) (events : List Event) → new.outcome ≡ None →
        Runs (DriverSteps R.steps) old events new → IsRun R.steps old events new }
{}
