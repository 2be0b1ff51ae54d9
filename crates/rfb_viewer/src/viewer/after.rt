//! What a viewer goes on with after a message's head, and after a rectangle. How far the bytes have
//! come is changed in place: it has room for a painter, which a move would copy.

ghost use Rattle.std.specs.Prelude.{◌≡◌, ◌<◌, ℕ, IfOk, IfErr};
ghost use Rattle.rfb_wire.specs.declared.server_head.ServerHead.TheVariants.{ColourMap, CutText};
ghost use Rattle.rfb_viewer.specs.Told.{seen};
ghost use Rattle.rfb_viewer.specs.steps.FedBytes.{end_event};
ghost use Rattle.rfb_viewer.specs.steps.Steps.{progress_after, told_after, request_after};
ghost use Rattle.rfb_viewer.specs.steps.Steps.{AsksAfter, progress_past, told_past, request_past};

use crate::event::ViewerEvent;
use crate::viewer::progress::{Progress, Request};
use rfb_hello::Text;
use rfb_wire::ServerHead;
use std::alloc::{AllocError, Global};

// How many bytes a colour of SetColorMapEntries has, RFC 6143 section 7.6.2.
const COLOUR_SIZE: u32 = 6;

/// Goes on after a message's head: the event that it gives. A text takes memory for as much of it
/// as is kept.
pub(crate) fn go_on_after(
    head: ServerHead,
    alloc: Global,
    text_limit: u32,
    progress: &mut Progress,
    request: &mut Request,
) -> Result<Option<ViewerEvent>, AllocError>
    ensures progress { IfOk result (λ event. progress.new ≡ progress_after text_limit head) }
    ensures request { IfOk result (λ event. request.new ≡ request_after head request.old) }
    ensures told { IfOk result (λ event. seen event ≡ told_after head) }
    ensures asked { IfErr result (λ _. AsksAfter head) }
{
    match head {
        ServerHead::Update(count) => Ok(end_of(go_on(progress, request, count))),
        ServerHead::ColourMap { count, .. } => Ok(go_on_to_colours(progress, count)),
        ServerHead::Bell => {
            progress.begin_message();
            Ok(Some(ViewerEvent::Bell))
        }
        ServerHead::CutText(length) => go_on_to_text(alloc, text_limit, progress, length),
    }
}

/// Goes on where `left` rectangles are left of an update: whether it has ended. It is not inlined,
/// since data that come byte by byte need none of it.
#[inline(never)]
pub(crate) fn go_on(progress: &mut Progress, request: &mut Request, left: u16) -> bool
    ensures progress { progress.new ≡ progress_past left }
    ensures request { request.new ≡ request_past left request.old }
    ensures told { seen (end_event result) ≡ told_past left }
{
    match left.checked_sub(1) {
        None => {
            progress.begin_message();
            *request = Request::Answered;
            true
        }
        Some(more) => {
            progress.begin_rectangle(more);
            false
        }
    }
}

/// The event where an update ends, or does not.
pub(crate) fn end_of(ends_update: bool) -> Option<ViewerEvent>
    ensures { result ≡ end_event ends_update }
{
    if ends_update {
        Some(ViewerEvent::UpdateDone)
    } else {
        None
    }
}

// Goes on after the head of a SetColorMapEntries with `count` colours.
fn go_on_to_colours(progress: &mut Progress, count: u16) -> Option<ViewerEvent>
    ensures progress { (text_limit first : ℕ) →
        progress.new ≡ progress_after text_limit (ColourMap first count) }
    ensures told { (first : ℕ) → seen result ≡ told_after (ColourMap first count) }
{
    match count.checked_sub(1) {
        None => {
            progress.begin_message();
            Some(ViewerEvent::ColourMapSkipped)
        }
        Some(others) => {
            *progress = Progress::Colours {
                more: u32::from(others) * COLOUR_SIZE + (COLOUR_SIZE - 1),
            };
            None
        }
    }
}

// Goes on after the head of a ServerCutText with `length` bytes.
fn go_on_to_text(
    alloc: Global,
    text_limit: u32,
    progress: &mut Progress,
    length: u32,
) -> Result<Option<ViewerEvent>, AllocError>
    ensures progress { IfOk result (λ event.
        progress.new ≡ progress_after text_limit (CutText length)) }
    ensures told { IfOk result (λ event. seen event ≡ told_after (CutText length)) }
    ensures asked { IfErr result (λ _. 0 < length) }
{
    let Some(more) = length.checked_sub(1) else {
        progress.begin_message();
        return Ok(Some(ViewerEvent::CutText {
            kept: Vec::new(alloc),
            length: 0,
        }));
    };
    let kept = Text::with_room(alloc, length.min(text_limit) as usize)?;
    *progress = Progress::CutText { length, more, kept };
    Ok(None)
}
