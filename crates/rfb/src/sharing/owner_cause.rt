//! Why a line of a share's owner is bad, for a person.

mod owner_form;

use crate::script::cause::form::form_of;
use crate::script::cause::kind::why_not_form;
use crate::script::cause::reason::Reason;
use crate::script::cause::{FIRST, LATE_SCREEN, first_words, why_not_words};
use crate::sharing::owner_cause::owner_form::OF_OWNER;
use rfb_picture::Rect;
use rfb_session::owner::{Beginning, LINE_MAX, OwnerLine, SCREEN, data_length, read_owner_line};

// What is wrong with a line of more than `LINE_MAX` bytes.
const LONG: &str = " has more than 96 bytes";

/// Why a line is bad. There is a screen, of this width and height, once a line has said so.
pub fn why_bad<'a>(said: &'a Beginning, screen: Option<(u16, u16)>) -> Reason<'a> {
    let line = said.line();
    if line.len() > LINE_MAX {
        return Reason::Said(LONG);
    }
    if let Some(reason) = why_not_words(line) {
        return reason;
    }
    match why_no_line(line, screen.is_some()) {
        Some(reason) => reason,
        None => why_not_done(line, said.after_line(), screen),
    }
}

// What is wrong with the words of a line, or with its place, if anything is.
fn why_no_line(line: &[u8], is_later: bool) -> Option<Reason<'_>> {
    let words = first_words(line);
    let (keyword, rest) = words.as_slice().split_first()?;
    let Some(form) = form_of(keyword, OF_OWNER) else {
        return Some(Reason::Keyword(keyword));
    };
    if is_later == (*keyword == SCREEN) {
        return Some(Reason::Said(LATE_SCREEN));
    }
    why_not_form(rest, form, FIRST)
}

// Why a line that says something is not done, with so many bytes after it.
fn why_not_done<'a>(line: &[u8], count: u64, screen: Option<(u16, u16)>) -> Reason<'a> {
    let Some((width, height)) = screen else {
        return Reason::Said(LATE_SCREEN);
    };
    if let Some(OwnerLine::Pixels(rect)) = read_owner_line(line) {
        if lies_within(rect, width, height) {
            return why_not_pixels(count, data_length(rect));
        }
    }
    Reason::Outside(width, height)
}

// Whether a rectangle lies on a screen of this size.
fn lies_within(rect: Rect, width: u16, height: u16) -> bool {
    u32::from(rect.x) + u32::from(rect.w) <= u32::from(width)
        && u32::from(rect.y) + u32::from(rect.h) <= u32::from(height)
}

// Why pixels on the screen are not drawn.
fn why_not_pixels<'a>(count: u64, due: u64) -> Reason<'a> {
    if count < due {
        return Reason::FewPixels(count, due);
    }
    Reason::ManyPixels(due)
}
