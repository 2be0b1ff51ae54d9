//! What a line of a script says, as a value.

ghost use Rattle.std.specs.Prelude.{◌≤◌};
ghost use Rattle.rfb.specs.Few.{cut_length};

use arrayvec::ArrayVec;
use rfb_pixel::Format;
use rfb_session::Event;
use rfb_session::language::Screen;
use rfb_wire::Encoding;

/// What the viewer asks the server for, once both are ready: pixels of a format, in one of these
/// encodings, the best first.
#[derive(Drop)]
pub struct Wants {
    pub format: Format,
    pub encodings: ArrayVec<Encoding, 4>,
}

/// What a line asks of both ends.
#[derive(Drop)]
pub enum Step {
    /// One event.
    Event(Event),
    /// Sixteen deliveries: eight times, all bytes reach the server, and then all the viewer.
    Settle,
}

/// A good line that is not empty.
#[derive(Drop)]
pub enum Line {
    /// The line that comes first.
    Screen(Screen),
    /// The line that may come second.
    Viewer(Wants),
    /// Any later line.
    Step(Step),
}

/// A step, and the line that asks for it, counted from 1.
#[derive(Drop)]
pub struct Numbered {
    pub line: u64,
    pub step: Step,
    ghost few: { cut_length step ≤ 1048576 },
}
