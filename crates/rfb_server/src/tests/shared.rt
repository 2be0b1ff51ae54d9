//! A screen and two sessions, each of its own viewer, played step by step.

ghost use Rattle.std.specs.Prelude.{◌≡◌, IfOk};
ghost use Rattle.rfb_picture.specs.Grid.{Grid, IsGrid};
ghost use Rattle.rfb_pixel.specs.declared.colour.Colour.{Colour};
ghost use Rattle.rfb_server.specs.KnownScreen.{Follows};

use super::places::BLACK;
use super::sessions::{are_twins, sends, sends_both, stands};
use crate::{Drawing, Notice, Session};
use rfb_hello::Version;
use rfb_picture::{Picture, Rect};
use rfb_pixel::Colour;
use std::alloc::{AllocError, Global};

// A screen that two viewers see.
#[derive(Drop)]
struct Shared {
    screen: Picture<Colour>,
    first: Session,
    second: Session,
    ghost told_first: { Follows screen first },
    ghost told_second: { Follows screen second },
}

// One of the two viewers.
#[derive(Clone, Copy)]
pub(super) enum Who {
    First,
    Second,
}

// What is done to a shared screen, or what holds of it.
#[derive(Clone, Copy)]
pub(super) enum Step<'a> {
    // The owner draws a rectangle of one colour.
    Draw(Rect, Colour),
    // Someone else draws it, and then the sessions are told where.
    Change(Rect, Colour),
    // The viewer sends bytes that give at most one event.
    Feed(Who, &'a [u8]),
    // It sends bytes that are refused.
    Fails(Who, &'a [u8]),
    // An update of exactly these bytes is composed for the viewer.
    Sends(Who, &'a [u8]),
    // Whether the viewer asks for the first place, and what it is known to have there.
    Stands(Who, bool, Option<u32>),
    // Whether the viewer waits for an update.
    Waits(Who, bool),
    // Whether an update for the first viewer is one for the second too.
    AreTwins(bool),
    // One of exactly these bytes is composed for the first, and the second takes it over.
    SendsBoth(&'a [u8]),
}

// A session that was fed nothing.
fn new_session(alloc: Global) -> Result<Session, AllocError>
    ensures { IfOk result (λ session. (screen : Grid Colour) → IsGrid screen
        → screen.width ≡ 3 → screen.height ≡ 2 → Follows screen session) }
{
    let name = b"t".as_slice();
    Session::new(alloc, 3, 2, name, Version::V38, 4)
}

impl Shared {
    // A black screen, and two sessions that were fed nothing.
    fn new(alloc: Global) -> Result<Shared, AllocError> {
        let screen = Picture::new(alloc, 3, 2, BLACK)?;
        let (first, second) = new_sessions(alloc)?;
        Ok(Shared {
            screen,
            first,
            second,
        })
    }

    // Both sessions are notified before it is drawn.
    fn draw(&mut self, rect: Rect, colour: Colour) -> bool {
        let fill = Drawing::Fill(rect, colour);
        let Ok(notice) = fill.notice(&self.screen) else {
            return false;
        };
        self.first.notified(&notice);
        self.second.notified(&notice);
        fill.draw_on(&mut self.screen);
        true
    }

    // Both are notified once it has changed.
    fn change(&mut self, rect: Rect, colour: Colour) -> bool {
        let Ok(notice) = Notice::changed(&self.screen, rect) else {
            return false;
        };
        self.screen.fill(rect, colour);
        self.first.notified(&notice);
        self.second.notified(&notice);
        true
    }

    fn feed(&mut self, who: Who, bytes: &[u8]) -> bool {
        match who {
            Who::First => self.first.feed(bytes).is_ok(),
            Who::Second => self.second.feed(bytes).is_ok(),
        }
    }

    fn sends(&mut self, who: Who, alloc: Global, bytes: &[u8]) -> bool {
        match who {
            Who::First => sends(&mut self.first, &self.screen, alloc, bytes),
            Who::Second => sends(&mut self.second, &self.screen, alloc, bytes),
        }
    }

    fn sends_both(&mut self, alloc: Global, bytes: &[u8]) -> bool {
        sends_both(
            &mut self.first,
            &mut self.second,
            &self.screen,
            alloc,
            bytes,
        )
    }

    fn session(&self, who: Who) -> &Session {
        match who {
            Who::First => &self.first,
            Who::Second => &self.second,
        }
    }

    fn is_right(&mut self, alloc: Global, step: Step) -> bool {
        match step {
            Step::Draw(rect, colour) => self.draw(rect, colour),
            Step::Change(rect, colour) => self.change(rect, colour),
            Step::Feed(who, bytes) => self.feed(who, bytes),
            Step::Fails(who, bytes) => !self.feed(who, bytes),
            Step::Sends(who, bytes) => self.sends(who, alloc, bytes),
            Step::Stands(who, asked, has) => stands(self.session(who), asked, has),
            Step::Waits(who, waits) => self.session(who).is_asked() == waits,
            Step::AreTwins(are) => are_twins(&self.first, &self.second, &self.screen) == are,
            Step::SendsBoth(bytes) => self.sends_both(alloc, bytes),
        }
    }
}

fn new_sessions(alloc: Global) -> Result<(Session, Session), AllocError>
    ensures { IfOk result (λ both. (screen : Grid Colour) → IsGrid screen
        → screen.width ≡ 3 → screen.height ≡ 2
        → Follows screen both.0 × Follows screen both.1) }
{
    let first = new_session(alloc)?;
    let second = new_session(alloc)?;
    Ok((first, second))
}

// The number of the first step that is wrong of a new shared screen, if one is; and how many steps
// there are, where memory is wanting for one.
pub(super) fn first_wrong(alloc: Global, steps: &[Step]) -> Option<usize> {
    match Shared::new(alloc) {
        Ok(shared) => first_wrong_then_drop(shared, alloc, steps),
        Err(_) => Some(steps.len()),
    }
}

// Whether all steps of a new shared screen are right: those of the front, and then the rest.
pub(super) fn are_right_after(alloc: Global, front: &[Step], rest: &[Step]) -> bool {
    match Shared::new(alloc) {
        Ok(shared) => are_right_then_drop(shared, alloc, front, rest),
        Err(_) => false,
    }
}

fn are_right_then_drop(shared: Shared, alloc: Global, front: &[Step], rest: &[Step]) -> bool {
    let mut shared = shared;
    let right = first_wrong_of(&mut shared, alloc, front).is_none()
        && first_wrong_of(&mut shared, alloc, rest).is_none();
    drop(shared);
    right
}

fn first_wrong_then_drop(shared: Shared, alloc: Global, steps: &[Step]) -> Option<usize> {
    let mut shared = shared;
    let wrong = first_wrong_of(&mut shared, alloc, steps);
    drop(shared);
    wrong
}

fn first_wrong_of(shared: &mut Shared, alloc: Global, steps: &[Step]) -> Option<usize> {
    for index in 0..steps.len() {
        if !shared.is_right(alloc, steps[index]) {
            return Some(index);
        }
    }
    None
}
