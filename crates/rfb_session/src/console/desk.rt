//! A share, the lines that wait for its owner, and what is known of each viewer.

ghost use Rattle.std.specs.Prelude.{◌≡◌, ◌<◌, length};

mod admitting;
mod composing;
pub(crate) mod hearing;
mod letting_go;
mod relaying;
pub(crate) mod turning;

use crate::console::guest::{Guest, Progress, TOLD_MOST};
use crate::console::plan::Rules;
use crate::language::Screen;
use crate::seat::Seat;
use crate::share::Share;
use crate::slots::SLOTS;
use rfb_server::{Drawing, Outside, ServerSetup as ShareSetup};
use std::alloc::{AllocError, Global};

/// Whether updates are held back, since when, and for how long at most.
#[derive(Clone, Copy, Debug, PartialEq, Eq)]
pub(crate) enum Hold {
    /// They are not.
    Shown,
    /// They are, from the next turn on.
    Begins,
    /// They are, since this time.
    Since(u64),
}

/// What is behind the doors of a console once the owner has said how large the screen is.
#[derive(Debug, Drop)]
pub(crate) struct Desk {
    pub share: Share,
    guests: [Guest; SLOTS],
    // The lines that wait for the owner.
    lines: Vec<u8>,
    rules: Rules,
    hold: Hold,
    // Whether a viewer's handshake was ever done.
    came: bool,
    // When it wants the next turn.
    next: Option<u64>,
    // The seat with which composing begins in the next turn.
    first: Seat,
    // When the latest large update was composed, in milliseconds.
    large: Option<u64>,
    ghost eight: { length guests ≡ 8 },
    ghost first_of_eight: { first < 8 },
}

impl Desk {
    ghost use Rattle.std.specs.Prelude.{◌++◌, ◌≤◌, ℕ, None, [], drop, IfOk, nat_lt};
    ghost use Rattle.rfb_picture.specs.Grid.{uniform};
    ghost use Rattle.rfb_server.specs.Server.{black};
    ghost use Rattle.rfb_server.specs.Strokes.{stroke};
    ghost use Rattle.rfb_session.specs.Share.{waits_at, screen_of};
    ghost use Rattle.rfb_session.specs.console.Desk.{lines_of, guest_at, is_over, is_heard};
    ghost use Rattle.rfb_session.specs.console.Desk.{is_idle, nobody};
    ghost use Rattle.rfb_session.specs.declared.console.desk.Hold.TheVariants.{Shown};
    ghost use Rattle.rfb_session.specs.console.Turns.{IsFreshDesk, DrawsAs, HoldsAs, ShowsAs};
    ghost use Rattle.rfb_session.specs.console.Turns.{WritesLines, WritesSeat, ForgetsTold};

    /// A desk with a black screen of this size, and no viewer.
    pub(crate) fn new(
        alloc: Global,
        screen: Screen,
        rules: Rules,
        name: &[u8],
    ) -> Result<Desk, AllocError>
        requires name { length name.now ≤ 255 }
        ensures { IfOk result (IsFreshDesk screen name.now rules) }
    {
        let setup = ShareSetup {
            text_limit: rules.text_limit,
            ..ShareSetup::usual(screen.width, screen.height, name)
        };
        let share = Share::of(alloc, setup)?;
        let lines = Vec::with_capacity(alloc, LINES_ROOM)?;
        Ok(Desk::of(share, lines, rules))
    }

    // A desk of a share that never had a viewer, with these lines for its owner.
    fn of(share: Share, lines: Vec<u8>, rules: Rules) -> Desk
        ensures share { result.share ≡ share }
        ensures guests { (k : ℕ) → guest_at result k ≡ nobody }
        ensures lines { result.lines ≡ lines }
        ensures rules { result.rules ≡ rules }
        ensures hold { result.hold ≡ Shown }
        ensures first { result.first ≡ 0 }
        ensures large { result.large ≡ None }
    {
        Desk {
            share,
            guests: [Guest::none(); SLOTS],
            lines,
            rules,
            hold: Hold::Shown,
            came: false,
            next: None,
            first: Seat::at(0),
            large: None,
        }
    }

    /// The screen's width and height.
    pub(crate) fn size(&self) -> (u16, u16)
        ensures width { result.0 ≡ (screen_of self.now.share).width }
        ensures height { result.1 ≡ (screen_of self.now.share).height }
    {
        let screen = self.share.picture();
        (screen.width(), screen.height())
    }

    /// Draws, as `Share::draw` does, and returns whether it could.
    pub(crate) fn draw(&mut self, drawing: &Drawing<'_>) -> bool
        ensures { DrawsAs self.old (stroke drawing.now) result self.new }
    {
        match self.share.draw(drawing) {
            Ok(()) => true,
            Err(Outside) => false,
        }
    }

    /// Updates are held back from here on, or are not any more.
    pub(crate) fn hold(&mut self, hold: Hold)
        ensures { HoldsAs self.old hold self.new }
    {
        self.hold = hold;
    }

    /// What was held back is shown, before a next scene begins: an update is composed for each
    /// viewer for which nothing waits.
    pub(crate) fn show(&mut self)
        ensures { ShowsAs self.old self.new }
    {
        self.hold(Hold::Shown);
        self.compose();
    }

    /// The lines that wait for the owner.
    pub(crate) fn lines(&self) -> &[u8]
        ensures { result.now ≡ lines_of self.now }
    {
        self.lines.as_slice()
    }

    /// The first `count` bytes of them are written.
    pub(crate) fn written_lines(&mut self, count: usize)
        requires { count ≤ length (lines_of self.old) }
        ensures { WritesLines self.old count self.new }
    {
        self.lines.drain(..count);
        if !self.lines.is_empty() {
            return;
        }
        for place in 0..SLOTS {
            self.forget_told_at(place);
        }
    }

    // No line waits that is about a viewer.
    fn forget_told_at(&mut self, place: usize)
        requires { place < 8 }
        ensures { ForgetsTold self.old place self.new }
    {
        self.guests[place].told = 0;
    }

    /// The bytes that wait for the viewer of a seat.
    pub(crate) fn to_write(&self, seat: Seat) -> &[u8]
        ensures { result.now ≡ waits_at self.now.share seat }
    {
        self.share.to_write(seat)
    }

    /// The first `count` bytes that wait at a seat are written.
    pub(crate) fn written(&mut self, seat: Seat, count: usize)
        ensures { WritesSeat self.old seat count self.new }
    {
        self.share.written(seat, count);
        self.guests[seat.place()].idle = None;
    }

    /// Whether no more is read at a seat: there is no viewer, or it has failed.
    pub(crate) fn is_over(&self, seat: Seat) -> bool
        ensures { result ≡ is_over (guest_at self.now seat).progress }
    {
        match self.guests[seat.place()].progress {
            Progress::Absent | Progress::Failing => true,
            Progress::Shaking | Progress::Ready => false,
        }
    }

    /// Whether more of a viewer may be reported.
    pub(crate) fn is_heard(&self, seat: Seat) -> bool
        ensures { result ≡ is_heard self.now seat }
    {
        !self.is_over(seat) && self.guests[seat.place()].told < TOLD_MOST
    }

    /// Whether there were viewers whose handshake was done, and now there is none at all.
    pub(crate) fn is_idle(&self) -> bool
        ensures { result ≡ is_idle self.now }
    {
        self.came && self.seated() == 0
    }

    /// Whether a newcomer could be reported.
    pub(crate) fn has_room(&self) -> bool
        ensures { result ≡ nat_lt (length (lines_of self.now)) 65536 }
    {
        self.lines.len() < LINES_ROOM
    }

    /// When it wants the next turn.
    pub(crate) fn next(&self) -> Option<u64>
        ensures { result ≡ self.now.next }
    {
        self.next
    }
}

// How many bytes of lines there is room for from the beginning. Where more wait, nobody comes.
pub(crate) const LINES_ROOM: usize = 1 << 16;
