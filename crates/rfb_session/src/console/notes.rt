//! Notes of a console: which of the owner's lines are bad, and sentences.

ghost use Rattle.std.specs.Prelude.{◌≤◌, length};
ghost use Rattle.rfb_session.specs.console.Console.{KeepsButNotes};

use crate::console::Console;
use crate::console::desk::hearing::Hearing;
use crate::console::speaker::{Note, Saying, Speaker, Why};
use crate::owner::{Refusal, tell_refusal};
use crate::seat::Seat;
use crate::seats::Seats;

// How many bytes of notes wait at most. What does not fit is dropped: whoever reads them does not.
const NOTES_MOST: usize = 8 << 20;

// Where more notes than these wait, sentences are dropped. So viewers that come and go make the
// owner wait for nobody.
const SENTENCES_MOST: usize = 1 << 15;

impl<S: Speaker + Drop> Console<S> {
    /// The last line of the owner's is not done: a sentence, and a line.
    pub(crate) fn note_refusal(&mut self, why: Refusal)
        ensures { KeepsButNotes self.old self.new }
    {
        self.say_refusal(why);
        self.add_refusal(why);
    }

    /// The sentence alone.
    pub(crate) fn say_refusal(&mut self, why: Refusal)
        ensures { KeepsButNotes self.old self.new }
    {
        let mut note = Note::new();
        let screen = match &self.desk {
            Some(desk) => Some(desk.size()),
            None => None,
        };
        let saying = Saying::Refused {
            number: self.count,
            why,
            said: &self.said,
            screen,
        };
        self.speaker.say(&saying, &mut note);
        self.add_note(&note);
    }

    /// A sentence says why the viewer at a seat is disconnected, if none did before: one that has
    /// failed is reported once.
    pub(crate) fn note_left(&mut self, seat: Seat, why: Why)
        ensures { KeepsButNotes self.old self.new }
    {
        if self.parted.has(seat) {
            return;
        }
        self.parted = self.parted.with(seat);
        self.note(&Saying::Left {
            seat: seat.number(),
            why,
        });
    }

    /// A sentence says this.
    pub(crate) fn note(&mut self, saying: &Saying<'_>)
        ensures { KeepsButNotes self.old self.new }
    {
        let mut note = Note::new();
        self.speaker.say(saying, &mut note);
        self.add_note(&note);
    }

    /// Who gave way to a newcomer, if anybody did, and the seat that it takes.
    pub(crate) fn note_gave_way(&mut self, left: Option<Seat>, taken: Option<Seat>)
        ensures { KeepsButNotes self.old self.new }
    {
        if let Some(seat) = left {
            self.note_left(seat, Why::Newcomer);
        }
        if let Some(seat) = taken {
            self.parted = self.parted.without(seat);
        }
    }

    /// The viewers at these seats are disconnected.
    pub(crate) fn note_all_left(&mut self, seats: Seats, why: Why)
        ensures { KeepsButNotes self.old self.new }
    {
        for seat in seats.iter() {
            self.note_left(seat, why);
        }
    }

    /// What became of bytes of a viewer's.
    pub(crate) fn note_heard(&mut self, seat: Seat, heard: &Hearing)
        ensures { KeepsButNotes self.old self.new }
    {
        self.note_all_left(heard.ended, Why::Alone(seat.number()));
        if let Some(fault) = heard.fault {
            self.note_left(seat, Why::Failed(fault));
        }
    }

    /// The input has ended, and no line said how large the screen is.
    pub(crate) fn note_no_screen(&mut self, number: u64)
        ensures { KeepsButNotes self.old self.new }
    {
        self.note(&Saying::NoScreen { number });
    }

    fn add_note(&mut self, note: &Note)
        ensures { KeepsButNotes self.old self.new }
    {
        if self.takes_notes(SENTENCES_MOST) {
            let length = self.notes.len();
            if self.notes.extend_from_slice(note.as_bytes()).is_err() {
                self.notes.truncate(length);
            }
            trim(&mut self.notes, length);
        }
    }

    fn add_refusal(&mut self, why: Refusal)
        ensures { KeepsButNotes self.old self.new }
    {
        if self.takes_notes(NOTES_MOST) {
            let length = self.notes.len();
            if tell_refusal(&mut self.notes, self.count, why).is_err() {
                self.notes.truncate(length);
                self.are_notes_wanting = true;
            }
            trim(&mut self.notes, length);
        }
    }

    fn takes_notes(&self, most: usize) -> bool {
        !self.are_notes_lost && self.notes.len() < most
    }
}

// Where too many bytes of notes wait, only the first `few` are kept.
fn trim(notes: &mut Vec<u8>, few: usize)
    requires { few ≤ 8388608 }
    ensures { length notes.new.items ≤ 8388608 }
{
    if notes.len() > NOTES_MOST {
        notes.truncate(few);
    }
}
