//! Reading one line of a script, by itself.

ghost use Rattle.std.specs.Prelude.{◌≡◌, ◌≢◌, ◌∷◌, ℕ, List, MatchOption};
ghost use Rattle.rfb_session.specs.declared.event.Event.{Event};
ghost use Rattle.rfb_session.specs.declared.hub.event.SlotEvent.{SlotEvent};
ghost use Rattle.rfb_session.specs.HubSeats.{event_of as world_event};
ghost use Rattle.rfb.specs.Script.{AsksForStep, GivesSize, GivesWants, Says, SaysEvent};
ghost use Rattle.rfb.specs.Script.{SaysNothing, SaysStep};
ghost use Rattle.rfb_session.specs.language.Words.{words_of, texts};
ghost use Rattle.rfb.specs.declared.script.line.Line.TheVariants as Line;
ghost use Rattle.rfb.specs.declared.script.line.Wants.{Wants};

use crate::script::arguments::{read_bytes, read_only_format, read_request, read_wants};
use crate::script::keyword::{
    COMPOSE, FORMAT, REQUEST, SCREEN, SETTLE, TO_SERVER, TO_VIEWER, VIEWER,
};
use crate::script::line::{Line, Step, Wants};
use rfb_session::language::{DrawingLine, Screen, parted, read_drawing, read_size};
use rfb_session::{Event, SlotEvent};

/// The screen's size, as a line without its newline gives it. It is `None` where the line gives
/// none.
pub fn read_screen(line: &[u8]) -> Option<Screen>
    ensures { MatchOption result (¬ (GivesSize line.now))
        (λ size. Says (words_of line.now) (Line.Screen size)) }
{
    match read_line(line)? {
        Line::Screen(size) => Some(size),
        Line::Viewer(_) | Line::Step(_) => None,
    }
}

/// What the viewer wants, as a line without its newline gives it. It is `None` where the line
/// gives nothing of it.
pub fn read_viewer(line: &[u8]) -> Option<Wants>
    ensures { MatchOption result (¬ (GivesWants line.now))
        (λ wants. Says (words_of line.now) (Line.Viewer wants)) }
{
    let words = parted(line)?;
    read_wants(words_after(words.as_slice(), VIEWER)?)
}

/// The step that a line without its newline asks for. It is `None` where the line asks for none.
pub fn read_step(line: &[u8]) -> Option<Step>
    ensures { MatchOption result (¬ (AsksForStep line.now)) (SaysStep (words_of line.now)) }
{
    match read_line(line)? {
        Line::Step(step) => Some(step),
        Line::Screen(_) | Line::Viewer(_) => None,
    }
}

// Reads a line without its newline. It is `None` where the line is bad at any place, as it is with
// any character that is not ASCII. This is a call of its own, since its loops over bytes would have
// too few registers within the loop over lines.
#[inline(never)]
fn read_line(line: &[u8]) -> Option<Line>
    ensures { MatchOption result (SaysNothing (words_of line.now)) (Says (words_of line.now)) }
{
    line_of(parted(line)?.as_slice())
}

/// The words of a line after its first, if that is this keyword.
pub fn words_after<'w, 'a>(words: &'w [&'a [u8]], keyword: &[u8]) -> Option<&'w [&'a [u8]]>
    ensures { MatchOption result
        ((rest : List (List ℕ)) → texts words.now ≢ keyword.now ∷ rest)
        (λ rest. texts words.now ≡ keyword.now ∷ texts rest.now) }
{
    let (first, rest) = words.split_first()?;
    if *first == keyword {
        return Some(rest);
    }
    None
}

// What the words of a line say.
fn line_of(words: &[&[u8]]) -> Option<Line>
    ensures { MatchOption result (SaysNothing (texts words.now)) (Says (texts words.now)) }
{
    let (keyword, rest) = words.split_first()?;
    if *keyword == SETTLE {
        if rest.is_empty() {
            return Some(Line::Step(Step::Settle));
        }
        return None;
    }
    if *keyword == SCREEN {
        return Some(Line::Screen(read_size(rest)?));
    }
    if *keyword == VIEWER {
        return Some(Line::Viewer(read_wants(rest)?));
    }
    Some(Line::Step(Step::Event(event_of(keyword, rest)?)))
}

// The event that a keyword and the words after it ask for.
fn event_of(keyword: &[u8], rest: &[&[u8]]) -> Option<Event>
    ensures { MatchOption result
        ((event : Event) → ¬ (SaysEvent (keyword.now ∷ texts rest.now) event))
        (SaysEvent (keyword.now ∷ texts rest.now)) }
{
    match read_drawing(keyword, rest) {
        Some(DrawingLine::Fill(rect, colour)) => Some(Event::Fill(rect, colour)),
        Some(DrawingLine::Copy(rect, sx, sy)) => Some(Event::Copy(rect, sx, sy)),
        Some(DrawingLine::Hint(rect, sx, sy)) => Some(Event::Hint(rect, sx, sy)),
        None => Some(as_event(slot_event_of(keyword, rest)?)),
    }
}

/// The event of one slot of a hub, or of both ends of a script, that a keyword and the words after
/// it ask for.
pub fn slot_event_of(keyword: &[u8], rest: &[&[u8]]) -> Option<SlotEvent>
    ensures { MatchOption result
        ((event : SlotEvent) → ¬ (SaysEvent (keyword.now ∷ texts rest.now) (world_event event)))
        (λ event. SaysEvent (keyword.now ∷ texts rest.now) (world_event event)) }
{
    if keyword == REQUEST {
        let (incremental, area) = read_request(rest)?;
        return Some(SlotEvent::Request(incremental, area));
    }
    if keyword == FORMAT {
        return Some(SlotEvent::SetFormat(read_only_format(rest)?));
    }
    if keyword == TO_VIEWER {
        return Some(SlotEvent::ToViewer(read_bytes(rest)?));
    }
    if keyword == TO_SERVER {
        return Some(SlotEvent::ToServer(read_bytes(rest)?));
    }
    if keyword == COMPOSE && rest.is_empty() {
        return Some(SlotEvent::Compose);
    }
    None
}

// The same event, of both ends of a script.
fn as_event(event: SlotEvent) -> Event
    ensures { result ≡ world_event event }
{
    match event {
        SlotEvent::Request(incremental, area) => Event::Request(incremental, area),
        SlotEvent::SetFormat(format) => Event::SetFormat(format),
        SlotEvent::SetEncodings(encodings) => Event::SetEncodings(encodings),
        SlotEvent::Key(down, key) => Event::Key(down, key),
        SlotEvent::Pointer(buttons, x, y) => Event::Pointer(buttons, x, y),
        SlotEvent::CutText(text) => Event::CutText(text),
        SlotEvent::Compose => Event::Compose,
        SlotEvent::ToServer(count) => Event::ToServer(count),
        SlotEvent::ToViewer(count) => Event::ToViewer(count),
    }
}
