//! A server that goes away.

ghost use Rattle.std.specs.Prelude.{◌↔◌, IsTrue};
ghost use Rattle.rfb_session.specs.drive.driver.Driver.{LosesServer, IsDoneWithAll};

use crate::drive::driver::saying::DriveSaying;
use crate::drive::driver::{DriveOutcome, Driver, Rig};
use crate::relay::Gone;

impl<R: Rig + Drop> Driver<R> {
    /// The server has gone away: a sentence, and all ends. Where the input has ended, and all its
    /// lines are done, that is no fault.
    pub(crate) fn lose_server(&mut self, gone: Gone)
        ensures { LosesServer self.old gone self.new }
    {
        if self.outcome.is_some() {
            return;
        }
        if self.is_done_with_all() {
            self.end(DriveOutcome::Done);
            return;
        }
        self.say(&DriveSaying::ServerLeft { why: gone });
        self.end(DriveOutcome::ServerGone(gone));
    }

    /// Whether no line is under way, the input has ended, and nothing of it is left.
    pub(crate) fn is_done_with_all(&self) -> bool
        ensures { IsTrue result ↔ IsDoneWithAll self.now }
    {
        self.is_shown && self.pace.task.is_idle() && self.input.upcoming().is_over()
    }
}
