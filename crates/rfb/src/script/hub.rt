//! Scripts of a hub: what several viewers of one screen are to do, a line for each step.
//!
//! ```text
//! hub W H                    first and once: the size of the screen, each side 1 to 4,096 pixels
//! join S shared F E..        a viewer takes slot S, and asks for a format and one to four
//!                            encodings, the best first; others may go on
//! join S sole F E..          the same, and it asks for the screen alone
//! leave S                    the viewer of a slot goes
//! foreign S HEX              1 to 64 bytes that no viewer sent are in flight to its session
//! at S LINE                  in that slot, a line of a script that is a request, a format, a
//!                            composing, a delivery or a settle
//! fill .., copy .., hint ..  as in a script; every session is notified
//! show S                     last and once: the slot whose picture is wanted
//! ```
//!
//! S is one digit. HEX has two hexadecimal digits for each byte, without spaces. Whether there is
//! such a slot is not judged here.

ghost use Rattle.std.specs.Prelude.{◌↔◌, ◌≡◌, ◌+◌, true, if◌then◌else◌, IfErr, IfOk};
ghost use Rattle.rfb.specs.HubScript.{AreHubScript, BeginHub, StopsReadingHub};
ghost use Rattle.rfb.specs.Script.{lines_of};

use crate::fault::Failure;
use crate::script::hub::hub_line::{read_hub, read_hub_step, read_show};
use crate::script::hub::hub_step::{HubNumbered, HubStep};
use crate::script::parting::lines_in;
use rfb_session::language::Screen;
pub use slot::{SHARED, SOLE};
use std::alloc::Global;

mod hub_line;
pub mod hub_step;
pub mod slot;

/// A script of a hub that was read to its end and has no bad line.
#[derive(Drop)]
pub struct HubScript {
    /// What its first line says.
    pub screen: Screen,
    /// What the lines between ask for, in their order.
    pub steps: Vec<HubNumbered>,
    /// The slot that its last line names.
    pub shown: u8,
}

/// Whether the first line that is not empty is one of a hub.
pub fn begins_hub(text: &[u8]) -> bool
    ensures { (result ≡ true) ↔ BeginHub (lines_of text.now) }
{
    for line in lines_in(text) {
        if !line.is_empty() {
            return read_hub(line).is_some();
        }
    }
    false
}

/// Reads a whole script of a hub. It fails at the first bad line, or where memory is refused. A
/// text that names no slot to be shown is bad at the line after its last one.
pub fn read_hub_script(alloc: Global, text: &[u8]) -> Result<HubScript, Failure>
    ensures read { IfOk result (λ script.
        AreHubScript (lines_of text.now) script.screen script.steps.items script.shown) }
    ensures stopped { IfErr result (StopsReadingHub (lines_of text.now)) }
{
    let mut screen = None;
    let mut steps = Vec::new(alloc);
    let mut shown = None;
    let mut number = 0;
    let mut after = 0;
    for line in lines_in(text) {
        number += 1;
        if line.is_empty() {
            after = number;
            continue;
        }
        after = number + 1;
        if shown.is_some() {
            return Err(Failure::BadLine(number));
        }
        if screen.is_none() {
            let Some(size) = read_hub(line) else {
                return Err(Failure::BadLine(number));
            };
            screen = Some(size);
            continue;
        }
        if let Some(slot) = read_show(line) {
            shown = Some(slot);
            continue;
        }
        match read_hub_step(alloc, line)? {
            Some(step) => steps.push(HubNumbered { line: number, step })?,
            None => return Err(Failure::BadLine(number)),
        }
    }
    match screen {
        Some(screen) => match shown {
            Some(shown) => Ok(HubScript {
                screen,
                steps,
                shown,
            }),
            None => Err(Failure::BadLine(after)),
        },
        None => Err(Failure::BadLine(after)),
    }
}
