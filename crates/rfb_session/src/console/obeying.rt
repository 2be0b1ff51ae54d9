//! What the owner of a console says, done.

ghost use Rattle.std.specs.Prelude.{◌≡◌, ◌⊎◌, ◌≤◌, Bool};
ghost use Rattle.rfb_server.specs.Strokes.{stroke};
ghost use Rattle.rfb_session.specs.owner.ShareLines.{leave_line};
ghost use Rattle.rfb_session.specs.console.Viewers.{LetsGo};
ghost use Rattle.rfb_session.specs.console.Turns.{HoldsAs, ShowsAs};
ghost use Rattle.rfb_session.specs.declared.console.desk.Hold.TheVariants.{Begins};
ghost use Rattle.rfb_session.specs.console.Console.{ObeysOrder, ObeysLine, OpensDesk, Draws};
ghost use Rattle.rfb_session.specs.console.Console.{OnDesk};
ghost use Rattle.rfb_session.specs.console.Console.{KeepsSide, LineEnds, RunsOut};

use crate::console::desk::{Desk, Hold};
use crate::console::speaker::{Speaker, Why};
use crate::console::{Console, Outcome};
use crate::language::Screen;
use crate::owner::{Order, OwnerLine, Refusal, drawing_of};
use crate::seat::Seat;
use rfb_server::Drawing;

impl<S: Speaker + Drop> Console<S> {
    /// Does what the owner says, or notes why not.
    pub(crate) fn follow(&mut self, order: Order)
        ensures obeys { ObeysOrder self.old order self.new }
        ensures ends { LineEnds self.old.outcome self.new.outcome }
        ensures side { KeepsSide self.old self.new }
    {
        self.count = self.count.saturating_add(1);
        if let Some(refusal) = self.obey(order) {
            self.note_refusal(refusal);
        }
        self.said.clear();
    }

    // Does what the owner says, and gives why not, if it can't be done.
    fn obey(&mut self, order: Order) -> Option<Refusal>
        ensures obeys { ObeysOrder self.old order self.new }
        ensures ends { LineEnds self.old.outcome self.new.outcome }
        ensures side { KeepsSide self.old self.new }
    {
        match order {
            Order::Nothing => None,
            Order::Refused(refusal) => Some(refusal),
            Order::Line(line) => self.obey_line(line),
            Order::Pixels(rect, data) => self.draw(&Drawing::Bytes(rect, &data)),
        }
    }

    fn obey_line(&mut self, line: OwnerLine) -> Option<Refusal>
        ensures obeys { ObeysLine self.old.name.items self.old.rules line
            self.old.desk self.old.outcome self.new.desk self.new.outcome }
        ensures ends { LineEnds self.old.outcome self.new.outcome }
        ensures side { KeepsSide self.old self.new }
    {
        match line {
            OwnerLine::Quit => self.end(Outcome::Quit),
            OwnerLine::Screen(screen) => self.open(screen),
            OwnerLine::End(number) => self.end_seat(number),
            OwnerLine::Hold => self.hold(),
            OwnerLine::Show => self.show(),
            _ => match drawing_of(&line) {
                Some(drawing) => self.draw(&drawing),
                None => Some(Refusal::Bad),
            },
        }
    }

    // All has ended so.
    pub(crate) fn end(&mut self, outcome: Outcome) -> Option<Refusal>
        ensures desk { self.new.desk ≡ self.old.desk }
        ensures outcome { self.new.outcome ≡ Some outcome }
        ensures side { KeepsSide self.old self.new }
    {
        self.outcome = Some(outcome);
        None
    }

    // The owner has said how large the screen is: viewers may come. It is no part of its callers:
    // what it makes needs a mebibyte of stack, of which each line would touch every page.
    #[inline(never)]
    fn open(&mut self, screen: Screen) -> Option<Refusal>
        ensures opens { OpensDesk self.old.name.items self.old.rules screen
            self.new.desk self.new.outcome }
        ensures ends { RunsOut self.old.outcome self.new.outcome }
        ensures side { KeepsSide self.old self.new }
    {
        match Desk::new(self.alloc, screen, self.rules, self.name.as_slice()) {
            Ok(desk) => {
                self.desk = Some(desk);
                None
            }
            Err(_) => self.end(Outcome::NoMemory),
        }
    }

    // The viewer of a seat is disconnected.
    fn end_seat(&mut self, number: u8) -> Option<Refusal>
        ensures lets_go { ((8 ≤ number) × (self.new.desk ≡ self.old.desk))
            ⊎ OnDesk (λ a b. (taken : Bool) × LetsGo a number taken (leave_line number) b)
            self.old.desk self.old.outcome self.new.desk self.new.outcome }
        ensures ends { RunsOut self.old.outcome self.new.outcome }
        ensures side { KeepsSide self.old self.new }
    {
        if let Some(seat) = Seat::new(number) {
            self.let_seat_go(seat, Why::Owner);
        }
        None
    }

    // Updates are held back.
    fn hold(&mut self) -> Option<Refusal>
        ensures holds { OnDesk (λ a b. HoldsAs a Begins b)
            self.old.desk self.old.outcome self.new.desk self.new.outcome }
        ensures outcome { self.new.outcome ≡ self.old.outcome }
        ensures side { KeepsSide self.old self.new }
    {
        match &mut self.desk {
            Some(desk) => {
                desk.hold(Hold::Begins);
                None
            }
            None => Some(Refusal::Bad),
        }
    }

    // What was held back is shown.
    fn show(&mut self) -> Option<Refusal>
        ensures shows { OnDesk ShowsAs
            self.old.desk self.old.outcome self.new.desk self.new.outcome }
        ensures outcome { self.new.outcome ≡ self.old.outcome }
        ensures side { KeepsSide self.old self.new }
    {
        match &mut self.desk {
            Some(desk) => {
                desk.show();
                None
            }
            None => Some(Refusal::Bad),
        }
    }

    // Something is drawn.
    fn draw(&mut self, drawing: &Drawing<'_>) -> Option<Refusal>
        ensures draws { Draws (stroke drawing.now)
            self.old.desk self.old.outcome self.new.desk self.new.outcome }
        ensures outcome { self.new.outcome ≡ self.old.outcome }
        ensures side { KeepsSide self.old self.new }
    {
        let Some(desk) = &mut self.desk else {
            return Some(Refusal::Bad);
        };
        if desk.draw(drawing) {
            None
        } else {
            Some(Refusal::Bad)
        }
    }
}
