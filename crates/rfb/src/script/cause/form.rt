//! The lines that there are, by their keywords, and what their words are to be.

use crate::script::cause::kind::Kind;
use crate::script::keyword::{
    COMPOSE, COPY, FILL, FOREIGN, FORMAT, HINT, HUB, JOIN, LEAVE, REQUEST, SCREEN, SETTLE, SHOW,
    TO_SERVER, TO_VIEWER, VIEWER,
};

/// A kind of line.
#[derive(Clone, Copy)]
pub struct Form {
    /// The word that it begins with.
    pub keyword: &'static [u8],
    /// What the words after that are to be.
    pub kinds: &'static [Kind],
    /// How many of these are due. Later ones may be missing.
    pub least: usize,
}

// A kind of line: its keyword, how many words after it are due, and what these and others are.
macro_rules! form {
    ($keyword:ident, $least:literal, [$($kind:ident),*]) => {
        Form {
            keyword: $keyword,
            kinds: &[$(Kind::$kind),*],
            least: $least,
        }
    };
}

pub(crate) use form;

/// The lines of a script, but for those that may follow `at` and a slot too.
pub const OF_SCRIPT: &[Form] = &[OF_SCREEN, OF_VIEWER, OF_FILL, OF_COPY, OF_HINT];

/// The lines of a hub's script, but for those of one slot.
pub const OF_HUB_SCRIPT: &[Form] = &[
    OF_HUB, OF_JOIN, OF_LEAVE, OF_FOREIGN, OF_SHOW, OF_FILL, OF_COPY, OF_HINT,
];

/// What may follow `at` and a slot.
pub const OF_SLOT: &[Form] = &[
    OF_REQUEST,
    OF_FORMAT,
    OF_TO_VIEWER,
    OF_TO_SERVER,
    OF_COMPOSE,
    OF_SETTLE,
];

/// The lines that a share's owner has too.
pub const OF_SCREEN: Form = form!(SCREEN, 2, [Side, Side]);

const OF_HUB: Form = form!(HUB, 2, [Side, Side]);

const OF_VIEWER: Form = form!(VIEWER, 2, [Format, Encoding, Encoding, Encoding, Encoding]);

const OF_JOIN: Form = form!(
    JOIN,
    4,
    [Slot, Join, Format, Encoding, Encoding, Encoding, Encoding]
);

const OF_LEAVE: Form = form!(LEAVE, 1, [Slot]);

const OF_SHOW: Form = form!(SHOW, 1, [Slot]);

const OF_FOREIGN: Form = form!(FOREIGN, 2, [Slot, Hex]);

/// The same.
pub const OF_FILL: Form = form!(FILL, 5, [Number, Number, Number, Number, Colour]);

/// The same.
pub const OF_COPY: Form = form!(COPY, 6, [Number, Number, Number, Number, Number, Number]);

/// The same.
pub const OF_HINT: Form = form!(HINT, 6, [Number, Number, Number, Number, Number, Number]);

const OF_REQUEST: Form = form!(REQUEST, 5, [Request, Number, Number, Number, Number]);

const OF_FORMAT: Form = form!(FORMAT, 1, [Format]);

const OF_TO_VIEWER: Form = form!(TO_VIEWER, 1, [Count]);

const OF_TO_SERVER: Form = form!(TO_SERVER, 1, [Count]);

const OF_COMPOSE: Form = form!(COMPOSE, 0, []);

const OF_SETTLE: Form = form!(SETTLE, 0, []);

/// The line of these that begins with a keyword.
pub fn form_of(keyword: &[u8], forms: &[Form]) -> Option<Form> {
    for form in forms {
        if form.keyword == keyword {
            return Some(*form);
        }
    }
    None
}
