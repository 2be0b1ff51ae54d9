//! The handshake of a viewer.

ghost use Rattle.std.specs.Prelude.{◌≡◌, length, OnOk, OnErr, None};
ghost use Rattle.rfb_viewer.specs.steps.ItemDamage.{screen_made};
ghost use Rattle.rfb_viewer.specs.steps.Steps.{TellsScreen, screen_past};

use crate::client_messages::ready_answer;
use crate::event::ViewerEvent;
use crate::fault::ViewerFault;
use crate::viewer::Viewer;
use crate::viewer::damage::{Edges, join};
use crate::viewer::progress::{Failure, Progress};
use arrayvec::ArrayVec;
use rfb_hello::{Fed, ViewerStep};
use rfb_picture::{Picture, Rect};
use rfb_pixel::Colour;
use std::alloc::{AllocError, Global};

// The colour that a picture begins with.
const BLACK: Colour = Colour { r: 0, g: 0, b: 0 };

impl Viewer {
    ghost use Rattle.rfb_viewer.specs.declared.viewer.progress.Progress.{Progress};
    ghost use Rattle.rfb_viewer.specs.steps.StepPromises.{Steps};

    // Takes a byte of the server's handshake, and makes the screen where a step gives its size. By
    // single bytes a fault comes with the one that is taken.
    pub(super) fn greet(&mut self, bytes: &[u8]) -> Result<Fed<ViewerEvent>, Failure>
        requires one { length bytes.now ≡ 1 }
        requires handshake { self.old.progress ≡ Progress.Handshake }
        ensures { Steps self.old bytes.now result self.new }
    {
        let fed = match self.hello.feed(bytes) {
            Ok(fed) => fed,
            Err(fault) => {
                let fault = self.progress.fail(ViewerFault::of_hello(fault));
                return Err(Failure { used: 1, fault });
            }
        };
        let used = fed.used;
        let step = match fed.event {
            None => return Ok(Fed { used, event: None }),
            Some(step) => step,
        };
        let Ok(()) = make_screen(self.alloc, &mut self.picture, &mut self.damage, &step) else {
            let fault = self.progress.fail(ViewerFault::NoMemory);
            return Err(Failure { used: 1, fault });
        };
        match step {
            ViewerStep::Reply(reply) => Ok(Fed {
                used,
                event: Some(ViewerEvent::Reply(reply)),
            }),
            ViewerStep::Screen { .. } => Ok(Fed { used, event: None }),
            ViewerStep::Ready {
                width,
                height,
                version: _,
                name,
                name_length,
            } => {
                self.progress = Progress::Head(ArrayVec::new());
                Ok(Fed {
                    used,
                    event: Some(ViewerEvent::Ready {
                        reply: ready_answer(self.format, self.encodings.as_slice()),
                        width,
                        height,
                        name: name.into_vec(),
                        name_length,
                    }),
                })
            }
        }
    }
}

// Makes the screen, black, where a step gives its size, unless there is one. All of it is damage,
// since all of it is new.
fn make_screen(
    alloc: Global,
    picture: &mut Option<Picture<Colour>>,
    damage: &mut Option<Edges>,
    step: &ViewerStep,
) -> Result<(), AllocError>
    ensures made { OnOk result (picture.new ≡ screen_past step.now picture.old) }
    ensures tells { OnErr result (TellsScreen step.now) }
    ensures none { OnErr result (picture.old ≡ None) }
    ensures kept { OnErr result (picture.new ≡ picture.old) }
    ensures damage { OnOk result (damage.new ≡
        screen_made picture.old picture.new damage.old) }
    ensures undamaged { OnErr result (damage.new ≡ damage.old) }
{
    let (width, height) = match step {
        ViewerStep::Reply(_) => return Ok(()),
        ViewerStep::Screen { width, height } => (*width, *height),
        ViewerStep::Ready { width, height, .. } => (*width, *height),
    };
    if picture.is_none() {
        let screen = Picture::new(alloc, width, height, BLACK)?;
        join(
            damage,
            Rect::whole(screen.width(), screen.height()),
            &screen,
        );
        *picture = Some(screen);
    }
    Ok(())
}
