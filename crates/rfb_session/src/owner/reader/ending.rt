//! The end of the owner's bytes, where the last line may lack its newline.

ghost use Rattle.rfb_session.specs.owner.Reader.{ClosesFrom, IsFresh};
ghost use Rattle.rfb_session.specs.declared.owner.stage.Stage.TheVariants as Stage;

use crate::owner::line::read_owner_line;
use crate::owner::order::{Order, OwnerLine, Refusal};
use crate::owner::reader::OwnerReader;
use crate::owner::stage::{LINE_MAX, Stage};
use arrayvec::ArrayVec;
use std::mem;

impl OwnerReader {
    /// No more bytes come. Gives what came after the last newline, if anything did, as if a newline
    /// ended it, and begins anew. A line of pixels whose bytes have not all come is refused.
    pub fn end(&mut self) -> Option<Order>
        ensures { ClosesFrom self.old.screen self.old.stage result self.new }
    {
        let stage = mem::replace(&mut self.stage, Stage::new());
        match stage {
            Stage::Line(line) => self.close_line(line),
            Stage::Pixels(pixels) => {
                if pixels.left() > 0 {
                    return Some(Order::Refused(Refusal::Bad));
                }
                let (rect, bytes) = pixels.into_parts();
                Some(Order::Pixels(rect, bytes))
            }
            Stage::Refused(left, why) => {
                if left > 0 {
                    return Some(Order::Refused(Refusal::Bad));
                }
                Some(Order::Refused(why))
            }
        }
    }

    // The newline of a line is missing: what it says, if anything came of it. No pixels follow.
    fn close_line(&mut self, line: ArrayVec<u8, LINE_MAX>) -> Option<Order>
        requires fresh { IsFresh self.old.stage }
        ensures { ClosesFrom self.old.screen (Stage.Line line) result self.new }
    {
        if line.is_empty() {
            return None;
        }
        let Some(said) = read_owner_line(line.as_slice()) else {
            return Some(Order::Refused(Refusal::Bad));
        };
        match said {
            OwnerLine::Pixels(_) => Some(Order::Refused(Refusal::Bad)),
            _ => Some(self.placed(said)),
        }
    }
}
