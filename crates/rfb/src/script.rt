//! Scripts: what both ends are to do, a line for each step.
//!
//! A script is ASCII text. Lines end in a newline, which the last one may lack. The words of a line
//! are parted by exactly one space. Empty lines are skipped, and counted.
//!
//! ```text
//! screen W H                 first and once: the size of the screen, each side 1 to 4,096 pixels
//! viewer F E..               second, or not at all: what the viewer asks for, a format and one to
//!                            four encodings, the best first
//! fill X Y W H RRGGBB        the server gives a rectangle of its screen a colour
//! copy X Y W H SX SY         a rectangle of the screen takes what the one at (SX, SY) had
//! hint X Y W H SX SY         a hint: a rectangle looks as the one there did
//! request full X Y W H       the viewer requests all of a rectangle
//! request inc X Y W H        the viewer requests what has changed of it
//! format F                   the viewer asks for another format
//! compose                    the server composes an update, if one is due
//! toserver N                 at most N bytes in flight reach the server
//! toviewer N                 at most N bytes in flight reach the viewer
//! settle                     eight times, all bytes reach the server, and then all the viewer
//! ```
//!
//! Numbers are decimal, of 1 to 10 digits, up to 65,535, and N up to 4,294,967,295. A colour has
//! two hexadecimal digits for each component, which is 257 times as much, or four. F is rgb888,
//! rgb565, bgr233 or rgb101010, and E raw, copyrect, rre or hextile. A script with any other line
//! is bad. Whether a rectangle lies on the screen is not judged here.

ghost use Rattle.std.specs.Prelude.{◌≡◌, [], None, IfOk, IfErr, MatchOption};
ghost use Rattle.rfb.specs.declared.script.line.Line.TheVariants as Line;
ghost use Rattle.rfb.specs.Script.{AreScript, GivesWants, Says, StopsReading, lines_of};
ghost use Rattle.rfb_session.specs.language.Words.{words_of};

mod arguments;
pub mod cause;
mod hub;
mod hub_steps;
mod keyword;
mod line;
mod parting;
mod read;
pub mod run;
mod run_hub;
pub mod steps;

use crate::fault::Failure;
use crate::script::cause::tell_bad_line;
use crate::script::parting::lines_in;
use crate::script::read::{read_screen, read_step, read_viewer};
pub use hub::hub_step::{HubNumbered, HubStep};
pub use hub::{HubScript, begins_hub, read_hub_script};
pub use line::{Numbered, Step, Wants};
use rfb_session::language::Screen;
pub use run::{SCRIPT, script};
use std::alloc::Global;
use std::io::Write;

/// A script that was read to its end and has no bad line.
#[derive(Drop)]
pub struct Script {
    /// What its first line says.
    pub screen: Screen,
    /// What its second line says, if that is of the viewer.
    pub wants: Option<Wants>,
    /// What its later lines ask for, in their order.
    pub steps: Vec<Numbered>,
}

/// Reads a whole script. It fails at the first bad line, or where memory is refused. A text with
/// nothing but empty lines is bad at the line after them.
pub fn read_script(alloc: Global, text: &[u8]) -> Result<Script, Failure>
    ensures read { IfOk result (λ script.
        AreScript (lines_of text.now) script.screen script.wants script.steps.items) }
    ensures stopped { IfErr result (StopsReading (lines_of text.now)) }
{
    let mut screen = None;
    let mut wants = None;
    let mut steps = Vec::new(alloc);
    let mut number = 0;
    for line in lines_in(text) {
        number += 1;
        if line.is_empty() {
            continue;
        }
        if screen.is_none() {
            let Some(size) = read_screen(line) else {
                return Err(Failure::BadLine(number));
            };
            screen = Some(size);
            continue;
        }
        if let Some(wanted) = read_second(line, &wants, &steps) {
            wants = Some(wanted);
            continue;
        }
        let Some(step) = read_step(line) else {
            return Err(Failure::BadLine(number));
        };
        steps.push(Numbered { line: number, step })?;
    }
    match screen {
        Some(screen) => Ok(Script {
            screen,
            wants,
            steps,
        }),
        None => Err(Failure::BadLine(number)),
    }
}

/// The same, and `notes` say why a line is bad.
pub fn read_explained<N: Write>(
    alloc: Global,
    text: &[u8],
    notes: &mut N,
) -> Result<Script, Failure>
    ensures read { IfOk result (λ script.
        AreScript (lines_of text.now) script.screen script.wants script.steps.items) }
    ensures stopped { IfErr result (StopsReading (lines_of text.now)) }
{
    let read = read_script(alloc, text);
    if let Err(Failure::BadLine(number)) = &read {
        tell_bad_line(text, *number, notes);
    }
    read
}

// What the viewer wants, if the line gives that where it may: before any step, and once.
fn read_second(line: &[u8], wants: &Option<Wants>, steps: &[Numbered]) -> Option<Wants>
    ensures { MatchOption result (wants.now ≡ None → steps.now ≡ [] → ¬ (GivesWants line.now))
        (λ wanted. (wants.now ≡ None) × (steps.now ≡ [])
        × Says (words_of line.now) (Line.Viewer wanted)) }
{
    if wants.is_some() || !steps.is_empty() {
        return None;
    }
    read_viewer(line)
}
