//! The lines of a share's owner, by their keywords, and what their words are to be.

use crate::script::cause::form::{Form, OF_COPY, OF_FILL, OF_HINT, OF_SCREEN, form};
use crate::script::cause::kind::Kind;
use rfb_session::owner::{END, HOLD, PIXELS, QUIT, SCROLL, SHOW};

/// The lines that there are.
pub const OF_OWNER: &[Form] = &[
    OF_SCREEN, OF_FILL, OF_COPY, OF_HINT, OF_SCROLL, OF_PIXELS, OF_END, OF_HOLD, OF_SHOW, OF_QUIT,
];

const OF_SCROLL: Form = form!(SCROLL, 6, [Number, Number, Number, Number, Shift, Shift]);

const OF_PIXELS: Form = form!(PIXELS, 4, [Number, Number, Number, Number]);

const OF_END: Form = form!(END, 1, [Seat]);

const OF_HOLD: Form = form!(HOLD, 0, []);

const OF_SHOW: Form = form!(SHOW, 0, []);

const OF_QUIT: Form = form!(QUIT, 0, []);
