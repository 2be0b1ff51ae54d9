//! The owner of a share, who draws by lines of text and hears by lines what viewers do.
//!
//! ```text
//! screen W H                 first and once: the size of the screen, each side 1 to 4,096 pixels
//! fill X Y W H RRGGBB        a rectangle of the screen gets a colour
//! copy X Y W H SX SY         a rectangle of the screen takes what the one at (SX, SY) had
//! hint X Y W H SX SY         a hint: a rectangle looks as the one there did
//! scroll X Y W H DX DY       what lies in a rectangle moves to the right and down
//! pixels X Y W H             the colours of a rectangle follow, three bytes each, and a newline
//! end S                      the viewer at seat S is disconnected
//! hold                       what is drawn after it is not shown yet
//! show                       it is shown, and what is drawn after that
//! quit                       all ends
//! ```
//!
//! Nothing here reads or waits: an `OwnerReader` is fed the bytes as they come, and the lines that
//! report go to any writer.

mod beginning;
mod drawing;
mod line;
mod notices;
mod order;
mod pixels;
mod reader;
mod stage;

pub use crate::language::SCREEN;
pub use beginning::Beginning;
pub use drawing::drawing_of;
pub use line::{END, HOLD, PIXELS, QUIT, SCROLL, SHOW, read_owner_line, read_shift};
pub(crate) use notices::tell_text_hex;
pub use notices::{tell_event, tell_fault, tell_join, tell_leave, tell_refusal};
pub use order::{Order, OwnerLine, Refusal};
pub use pixels::data_length;
pub use reader::{OwnerReader, Taken, length_of_line};
pub use stage::LINE_MAX;
