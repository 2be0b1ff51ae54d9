//! The line that is under way, and what it waits for. Times are in milliseconds.

ghost use Rattle.std.specs.Prelude.{◌≡◌};
ghost use Rattle.rfb_session.specs.drive.driver.Tasks as spec;
ghost use Rattle.rfb_session.specs.drive.driver.Rigs.{wanted_in};
ghost use Rattle.rfb_session.specs.drive.driver.Tasks.{HearsChange, stamped};

use crate::drive::driver::looking::{Sight, look, rect_of, touches};
use crate::drive::driver::saying::{Lateness, Unlike};
use crate::drive::words::Likeness;
use crate::netpbm::Pixmap;
use rfb_picture::{Picture, Rect};
use rfb_pixel::Colour;

/// What the line that is under way waits for.
#[derive(Drop)]
pub(crate) enum Task {
    /// No line is under way.
    Idle,
    /// So many bytes wait for the server up to the last of its messages.
    Sending(usize),
    /// Nothing is to change for so long. The last change was at this time, if a turn has given the
    /// time since.
    Still(u64, Option<u64>),
    /// So much time is to pass.
    Wait(u64),
    /// Something is to change, in a part of the screen or anywhere.
    Change(Option<Rect>),
    /// The screen is to show a picture.
    Expect(Expected),
}

/// A picture that the screen is to show, and where it last did not.
#[derive(Drop)]
pub(crate) struct Expected {
    pub wanted: Pixmap,
    pub likeness: Likeness,
    pub unlike: Unlike,
}

impl Task {
    /// Whether no line is under way.
    pub(crate) fn is_idle(&self) -> bool
        ensures { result ≡ spec.is_idle self.now }
    {
        matches!(self, Task::Idle)
    }

    /// An update has changed a rectangle of the screen, which shows this now. Returns whether the
    /// line is done by that.
    pub(crate) fn hear_change(&mut self, rect: Rect, screen: &Picture<Colour>) -> bool
        ensures { HearsChange self.old rect screen.now result self.new }
    {
        match self {
            Task::Still(_, since) => {
                *since = None;
                false
            }
            Task::Change(part) => is_touched(*part, rect),
            Task::Expect(expected) => expected.hear_change(rect, screen),
            Task::Idle | Task::Sending(_) | Task::Wait(_) => false,
        }
    }

    /// So many bytes have left for the server. Returns whether the line is done by that.
    pub(crate) fn hear_left(&mut self, count: usize) -> bool
        ensures task { self.new ≡ spec.left_by count self.old }
        ensures done { result ≡ spec.is_sent self.new }
    {
        let Task::Sending(left) = self else {
            return false;
        };
        *left = left.saturating_sub(count);
        *left == 0
    }

    /// It is this time: where something changed since the last turn, it changed now.
    pub(crate) fn stamp(&mut self, now: u64)
        ensures { self.new ≡ stamped now self.old }
    {
        if let Task::Still(_, since) = self {
            *since = Some(since.unwrap_or(now));
        }
    }

    /// Whether a line that began then is done at this time, by time alone.
    pub(crate) fn is_passed(&self, begun: u64, now: u64) -> bool
        ensures { result ≡ spec.is_passed begun now self.now }
    {
        match self {
            Task::Still(span, Some(since)) => now.saturating_sub(*since) >= *span,
            Task::Wait(span) => now.saturating_sub(begun) >= *span,
            _ => false,
        }
    }

    /// Why a line that began then, and may take so long, is late at this time, if it is.
    pub(crate) fn lateness(&self, begun: u64, limit: u64, now: u64) -> Option<Lateness>
        ensures { result ≡ spec.lateness begun limit now self.now }
    {
        if now.saturating_sub(begun) < limit {
            return None;
        }
        match self {
            Task::Idle | Task::Wait(_) => None,
            Task::Sending(_) => Some(Lateness::Unsent),
            Task::Still(..) => Some(Lateness::Moving),
            Task::Change(_) => Some(Lateness::Unchanged),
            Task::Expect(expected) => Some(Lateness::Unlike(expected.unlike)),
        }
    }

    /// When something happens to a line that began then, and may take so long, by time alone.
    pub(crate) fn due(&self, begun: u64, limit: u64) -> Option<u64>
        ensures { result ≡ spec.due begun limit self.now }
    {
        let end = begun.saturating_add(limit);
        match self {
            Task::Idle => None,
            Task::Wait(span) => Some(begun.saturating_add(*span)),
            Task::Still(span, Some(since)) => Some(end.min(since.saturating_add(*span))),
            Task::Sending(_) | Task::Still(_, None) | Task::Change(_) | Task::Expect(_) => {
                Some(end)
            }
        }
    }

    /// What is expected of the screen, if something is.
    pub(crate) fn wanted(&self) -> Option<(&Pixmap, Likeness)>
        ensures { wanted_in result ≡ spec.wanted self.now }
    {
        match self {
            Task::Expect(expected) => Some((&expected.wanted, expected.likeness)),
            _ => None,
        }
    }
}

impl Expected {
    // An update has changed a rectangle. Where it has a place of the picture's, the screen is
    // looked at. Returns whether it shows the picture.
    fn hear_change(&mut self, rect: Rect, screen: &Picture<Colour>) -> bool
        ensures { spec.LooksAgain self.old rect screen.now result self.new }
    {
        if !touches(rect, rect_of(&self.wanted, self.likeness.at)) {
            return false;
        }
        match look(screen, &self.wanted, self.likeness) {
            Sight::Same => true,
            Sight::Differs(unlike) => {
                self.unlike = unlike;
                false
            }
            Sight::Off => false,
        }
    }
}

/// Whether something of a part, or anything, lies in a rectangle.
pub(crate) fn is_touched(part: Option<Rect>, rect: Rect) -> bool
    ensures { result ≡ spec.is_touched part rect }
{
    match part {
        None => true,
        Some(part) => touches(rect, part),
    }
}
