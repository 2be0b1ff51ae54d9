//! Why a line of a hub's script is bad.

use crate::script::cause::form::{OF_HUB_SCRIPT, OF_SLOT, form_of};
use crate::script::cause::kind::{Kind, why_not_form};
use crate::script::cause::reason::Reason;
use crate::script::cause::{FIRST, first_words, tell_reason, why_not_words};
use crate::script::keyword::{AT, SHOW};
use crate::script::parting::lines_in;
use rfb_session::language::read_slot;
use std::io::Write;

// Which word of a line of one slot its keyword is.
const THIRD: &str = "third";

// What is wrong with lines, where nothing of the line itself is told.
const LATE_SHOW: &str = ": `show S` stands last, and once";

const LATE_HUB: &str = ": `hub W H` stands first, and once";

const NO_SLOT: &str = ": a slot and a line of it stand after `at`";

const NO_LINE: &str = ": a line of the slot stands after `at S`";

/// Says why the line with this number, counted from 1, is bad. A script without a last line is bad
/// after its end.
pub fn tell_bad_hub_line<N: Write>(text: &[u8], number: u64, notes: &mut N) {
    let mut has_shown = false;
    for (at, line) in (1..u64::MAX).zip(lines_in(text)) {
        if at == number && !line.is_empty() {
            tell_reason(number, why_bad(line, has_shown), notes);
            return;
        }
        has_shown = has_shown || line.starts_with(SHOW);
    }
    let _ = writeln!(
        notes,
        "rfb: line {number} of the script: the script ends before it, and none says `show S`"
    );
}

// Why a line is bad, after the one that shows a slot or before it.
fn why_bad(line: &[u8], has_shown: bool) -> Reason<'_> {
    match why_not_words(line) {
        Some(reason) => reason,
        None if has_shown => Reason::Said(LATE_SHOW),
        None => why_no_line(line),
    }
}

// What is wrong with the words of a line. Only the first line is bad for its place.
fn why_no_line(line: &[u8]) -> Reason<'_> {
    let words = first_words(line);
    let Some((keyword, rest)) = words.as_slice().split_first() else {
        return Reason::Said(LATE_HUB);
    };
    let found = if *keyword == AT {
        why_not_at(rest)
    } else {
        match form_of(keyword, OF_HUB_SCRIPT) {
            Some(form) => why_not_form(rest, form, FIRST),
            None => Some(Reason::Keyword(keyword)),
        }
    };
    match found {
        Some(reason) => reason,
        None => Reason::Said(LATE_HUB),
    }
}

// What is wrong with the words after `at`, if anything is.
fn why_not_at<'a>(words: &[&'a [u8]]) -> Option<Reason<'a>> {
    let Some((slot, line)) = words.split_first() else {
        return Some(Reason::Said(NO_SLOT));
    };
    if read_slot(slot).is_none() {
        return Some(Reason::Word(slot, Kind::Slot));
    }
    let Some((keyword, rest)) = line.split_first() else {
        return Some(Reason::Said(NO_LINE));
    };
    match form_of(keyword, OF_SLOT) {
        Some(form) => why_not_form(rest, form, THIRD),
        None => Some(Reason::SlotKeyword(keyword)),
    }
}
