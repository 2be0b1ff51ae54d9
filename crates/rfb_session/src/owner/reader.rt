//! The owner's lines, out of bytes that come in any slices.

mod ending;

ghost use Rattle.std.specs.Prelude.{◌≡◌, ◌≤◌, ◌<◌, ◌∷◌, ℕ, List, [], true, ◌↔◌, drop, length, take};
ghost use Rattle.rfb_session.specs.owner.Lines.{IsOneLine, LiesOnKnown, data_length};
ghost use Rattle.rfb_session.specs.owner.Reader.{Feeds, FeedsFrom, IsFresh, IsFreshReader, Places};
ghost use Rattle.rfb_session.specs.owner.Reader.{StartsData};
ghost use Rattle.rfb_session.specs.declared.owner.stage.Stage.TheVariants as Stage;

use crate::language::Screen;
use crate::owner::line::read_owner_line;
use crate::owner::order::{Order, OwnerLine, Refusal};
use crate::owner::pixels::{Pixels, data_length};
use crate::owner::stage::{LINE_MAX, Stage, longer};
use arrayvec::ArrayVec;
use rfb_picture::Rect;
use std::alloc::Global;
use std::mem;

const NEWLINE: u8 = b'\n';

/// Reads lines of the owner's. It holds a line of at most 96 bytes, or the pixels of a rectangle
/// on the screen, three bytes for each place.
#[derive(Drop)]
pub struct OwnerReader {
    alloc: Global,
    // The size of the screen, once a line has said it.
    screen: Option<Screen>,
    stage: Stage,
}

/// What was read of some bytes.
#[derive(Drop)]
pub struct Taken {
    /// How many of them were taken.
    pub used: usize,
    /// What the line says, if its newline is the last of these.
    pub order: Option<Order>,
}

impl OwnerReader {
    /// A reader that was fed nothing.
    pub fn new(alloc: Global) -> OwnerReader
        ensures { IsFreshReader result }
    {
        OwnerReader {
            alloc,
            screen: None,
            stage: Stage::new(),
        }
    }

    /// Takes some of these bytes: up to the newline that ends what is being read, or fewer. Gives
    /// what was read if they end with that newline. Then the reader begins anew.
    pub fn feed(&mut self, bytes: &[u8]) -> Taken
        requires some { 0 < length bytes.now }
        ensures used { (0 < result.used) × (result.used ≤ length bytes.now) }
        ensures feeds { Feeds self.old (take result.used bytes.now) result.order self.new }
    {
        let stage = mem::replace(&mut self.stage, Stage::new());
        match stage {
            Stage::Line(line) => self.feed_line(line, bytes),
            Stage::Pixels(pixels) => self.feed_pixels(pixels, bytes),
            Stage::Refused(left, why) => self.feed_refused(left, why, bytes),
        }
    }

    // Takes bytes of a line, or its newline.
    fn feed_line(&mut self, line: ArrayVec<u8, LINE_MAX>, bytes: &[u8]) -> Taken
        requires some { 0 < length bytes.now }
        requires fresh { IsFresh self.old.stage }
        ensures used { (0 < result.used) × (result.used ≤ length bytes.now) }
        ensures feeds { FeedsFrom self.old.screen (Stage.Line line)
            (take result.used bytes.now) result.order self.new }
    {
        let used = length_of_line(bytes);
        if used == 0 {
            let order = self.end_line(line);
            return Taken { used: 1, order };
        }
        self.stage = longer(line, &bytes[..used]);
        Taken { used, order: None }
    }

    // The newline of a line has come: what it says, if no pixels follow.
    fn end_line(&mut self, line: ArrayVec<u8, LINE_MAX>) -> Option<Order>
        requires fresh { IsFresh self.old.stage }
        ensures { FeedsFrom self.old.screen (Stage.Line line) (10 ∷ []) result self.new }
    {
        if line.is_empty() {
            return Some(Order::Nothing);
        }
        let Some(said) = read_owner_line(line.as_slice()) else {
            return Some(Order::Refused(Refusal::Bad));
        };
        match said {
            OwnerLine::Pixels(rect) => {
                self.stage = self.after_pixels(rect);
                None
            }
            _ => Some(self.placed(said)),
        }
    }

    // A line that says the screen's size comes first, and once.
    fn placed(&mut self, line: OwnerLine) -> Order
        ensures { Places self.old line result self.new }
    {
        match line {
            OwnerLine::Screen(screen) if self.screen.is_none() => {
                self.screen = Some(screen);
                Order::Line(line)
            }
            OwnerLine::Screen(_) => Order::Refused(Refusal::Bad),
            _ if self.screen.is_none() => Order::Refused(Refusal::Bad),
            _ => Order::Line(line),
        }
    }

    // What comes after a line that says where pixels go.
    fn after_pixels(&self, rect: Rect) -> Stage
        ensures { StartsData self.now.screen rect result }
    {
        if !self.holds(rect) {
            return Stage::Refused(data_length(rect), Refusal::Bad);
        }
        match Pixels::with_room(self.alloc, rect) {
            Ok(pixels) => Stage::Pixels(pixels),
            Err(_) => Stage::Refused(data_length(rect), Refusal::NoMemory),
        }
    }

    // Whether a rectangle lies on the screen.
    fn holds(&self, rect: Rect) -> bool
        ensures { (result ≡ true) ↔ LiesOnKnown self.now.screen rect }
    {
        let Some(screen) = self.screen else {
            return false;
        };
        if u32::from(rect.x) + u32::from(rect.w) > u32::from(screen.width) {
            return false;
        }
        if u32::from(rect.y) + u32::from(rect.h) > u32::from(screen.height) {
            return false;
        }
        true
    }

    // Takes bytes of pixels, or the one after them.
    fn feed_pixels(&mut self, mut pixels: Pixels, bytes: &[u8]) -> Taken
        requires some { 0 < length bytes.now }
        requires fresh { IsFresh self.old.stage }
        ensures used { (0 < result.used) × (result.used ≤ length bytes.now) }
        ensures feeds { FeedsFrom self.old.screen (Stage.Pixels pixels)
            (take result.used bytes.now) result.order self.new }
    {
        if pixels.left() > 0 {
            let used = pixels.take(bytes);
            self.stage = Stage::Pixels(pixels);
            return Taken { used, order: None };
        }
        let order = self.end_pixels(pixels, bytes[0]);
        Taken { used: 1, order }
    }

    // Takes the byte after pixels.
    fn end_pixels(&mut self, pixels: Pixels, byte: u8) -> Option<Order>
        requires all { data_length pixels.rect ≤ length pixels.bytes.items }
        requires fresh { IsFresh self.old.stage }
        ensures { FeedsFrom self.old.screen (Stage.Pixels pixels) (byte ∷ []) result self.new }
    {
        if byte != NEWLINE {
            self.stage = Stage::Refused(0, Refusal::Bad);
            return None;
        }
        let (rect, bytes) = pixels.into_parts();
        Some(Order::Pixels(rect, bytes))
    }

    // Takes bytes of what is refused.
    fn feed_refused(&mut self, left: u64, why: Refusal, bytes: &[u8]) -> Taken
        requires some { 0 < length bytes.now }
        requires fresh { IsFresh self.old.stage }
        ensures used { (0 < result.used) × (result.used ≤ length bytes.now) }
        ensures feeds { FeedsFrom self.old.screen (Stage.Refused left why)
            (take result.used bytes.now) result.order self.new }
    {
        if left > 0 {
            let used = left.min(bytes.len() as u64) as usize;
            self.stage = Stage::Refused(left - used as u64, why);
            return Taken { used, order: None };
        }
        let used = length_of_line(bytes);
        if used > 0 {
            // A newline was due.
            self.stage = Stage::Refused(0, Refusal::Bad);
            return Taken { used, order: None };
        }
        Taken {
            used: 1,
            order: Some(Order::Refused(why)),
        }
    }
}

/// How many bytes there are before the first newline, or else all.
pub fn length_of_line(bytes: &[u8]) -> usize
    ensures bound { result ≤ length bytes.now }
    ensures before { IsOneLine (take result bytes.now) }
    ensures newline { result < length bytes.now
        → (rest : List ℕ) × (drop result bytes.now ≡ 10 ∷ rest) }
{
    let mut length = 0;
    for byte in bytes {
        if *byte == NEWLINE {
            break;
        }
        length += 1;
    }
    length
}
