//! Reading one line of a hub's script, by itself.

ghost use Rattle.std.specs.Prelude.{◌≢◌, ◌∷◌, IfOk, MatchOption, codes};
ghost use Rattle.rfb.specs.declared.script.hub.hub_step.HubStep.{HubStep};
ghost use Rattle.rfb_session.specs.declared.language.screen.Screen.{Screen};
ghost use Rattle.rfb.specs.declared.script.hub.hub_step.HubStep.TheVariants as HubStep;
ghost use Rattle.rfb.specs.HubScript.{AsksInHub, GivesHub, NamesShown, SaysAt, SaysHub};
ghost use Rattle.rfb.specs.HubScript.{SaysHubStep, SaysShow};
ghost use Rattle.rfb_session.specs.language.Words.{words_of, texts};

use crate::script::hub::hub_step::HubStep;
use crate::script::hub::slot::{read_foreign, read_join};
use crate::script::keyword::{AT, FOREIGN, HUB, JOIN, LEAVE, SETTLE, SHOW};
use crate::script::read::{slot_event_of, words_after};
use rfb_session::HubEvent;
use rfb_session::language::{
    DrawingLine, Screen, parted, read_drawing, read_only_slot, read_size, read_slot,
};
use std::alloc::{AllocError, Global};

/// The size of a hub's screen, as a line without its newline gives it. It is `None` where the line
/// gives none.
pub fn read_hub(line: &[u8]) -> Option<Screen>
    ensures { MatchOption result (¬ (GivesHub line.now)) (SaysHub (words_of line.now)) }
{
    let words = parted(line)?;
    read_size(words_after(words.as_slice(), HUB)?)
}

/// The slot to be shown, as a line without its newline names it. It is `None` where the line names
/// none.
pub fn read_show(line: &[u8]) -> Option<u8>
    ensures { MatchOption result (¬ (NamesShown line.now)) (SaysShow (words_of line.now)) }
{
    let words = parted(line)?;
    read_only_slot(words_after(words.as_slice(), SHOW)?)
}

/// The step that a line without its newline asks for. It is `None` where the line asks for none.
/// Memory is taken for foreign bytes alone.
pub fn read_hub_step(alloc: Global, line: &[u8]) -> Result<Option<HubStep>, AllocError>
    ensures { IfOk result (λ found. MatchOption found
        (¬ (AsksInHub line.now)) (SaysHubStep (words_of line.now))) }
{
    match parted(line) {
        Some(words) => hub_step_of(alloc, words.as_slice()),
        None => Ok(None),
    }
}

// The step that the words of a line ask for.
fn hub_step_of(alloc: Global, words: &[&[u8]]) -> Result<Option<HubStep>, AllocError>
    ensures { IfOk result (λ found. MatchOption found
        ((step : HubStep) → ¬ (SaysHubStep (texts words.now) step))
        (SaysHubStep (texts words.now))) }
{
    let Some((keyword, rest)) = words.split_first() else {
        return Ok(None);
    };
    if *keyword != FOREIGN {
        return Ok(spare_step_of(keyword, rest));
    }
    match read_foreign(alloc, rest)? {
        Some((slot, bytes)) => Ok(Some(HubStep::Event(HubEvent::Foreign(slot, bytes)))),
        None => Ok(None),
    }
}

// The step that a keyword other than of foreign bytes and the words after it ask for.
fn spare_step_of(keyword: &[u8], rest: &[&[u8]]) -> Option<HubStep>
    requires foreign { keyword.now ≢ codes "foreign" }
    ensures { MatchOption result
        ((step : HubStep) → ¬ (SaysHubStep (keyword.now ∷ texts rest.now) step))
        (SaysHubStep (keyword.now ∷ texts rest.now)) }
{
    if keyword == JOIN {
        let (slot, setup) = read_join(rest)?;
        return Some(HubStep::Event(HubEvent::Join(slot, setup)));
    }
    if keyword == LEAVE {
        return Some(HubStep::Event(HubEvent::Leave(read_only_slot(rest)?)));
    }
    if keyword == AT {
        return step_at(rest);
    }
    match read_drawing(keyword, rest)? {
        DrawingLine::Fill(rect, colour) => Some(HubStep::Event(HubEvent::Fill(rect, colour))),
        DrawingLine::Copy(rect, sx, sy) => Some(HubStep::Event(HubEvent::Copy(rect, sx, sy))),
        DrawingLine::Hint(rect, sx, sy) => Some(HubStep::Event(HubEvent::Hint(rect, sx, sy))),
    }
}

// The step that the words after `at` ask for.
fn step_at(words: &[&[u8]]) -> Option<HubStep>
    ensures { MatchOption result ((step : HubStep) → ¬ (SaysAt (texts words.now) step))
        (SaysAt (texts words.now)) }
{
    let (slot, line) = words.split_first()?;
    let slot = read_slot(slot)?;
    let (keyword, rest) = line.split_first()?;
    if *keyword == SETTLE && rest.is_empty() {
        return Some(HubStep::Settle(slot));
    }
    Some(HubStep::Event(HubEvent::Of(slot, slot_event_of(keyword, rest)?)))
}
