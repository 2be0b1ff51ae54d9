//! The handshake of a session.

ghost use Rattle.std.specs.Prelude.{◌≡◌, ◌≤◌, ◌<◌, length, take, true, IfOk, IfErr};
ghost use Rattle.std.specs.Result.{result_err};
ghost use Rattle.rfb_server.specs.Progress.{progress_after};
ghost use Rattle.rfb_server.specs.Told.{seen, step_told};

use crate::event::ServerEvent;
use crate::fault::ServerFault;
use crate::session::Session;
use crate::session::input::progress::Progress;
use arrayvec::ArrayVec;
use rfb_hello::{Fed, ServerStep};

impl Session {
    ghost use Rattle.rfb_hello.specs.ServerModel.{is_open};
    ghost use Rattle.rfb_server.specs.declared.session.input.progress.Progress.{Progress};
    ghost use Rattle.rfb_server.specs.Progress.{fault_in};
    ghost use Rattle.rfb_server.specs.session.Sessions.{KeepsUp};
    ghost use Rattle.rfb_server.specs.session.Slice.{FeedsAs};
    ghost use Rattle.rfb_server.specs.Failed.{EndsAs};

    // Takes bytes of the client's handshake, up to the last of its first step that makes an
    // event, or all. Bytes after the handshake are the messages'.
    pub(crate) fn greet(&mut self, bytes: &[u8]) -> Result<Fed<ServerEvent>, ServerFault>
        requires handshake { self.old.progress ≡ Progress.Handshake }
        requires open { is_open self.old.hello ≡ true }
        requires some { 0 < length bytes.now }
        ensures used { IfOk result (λ fed. (0 < fed.used) × (fed.used ≤ length bytes.now)) }
        ensures fed { IfOk result (λ fed.
            FeedsAs self.old (take fed.used bytes.now) fed.event self.new) }
        ensures up { KeepsUp self.old self.new }
        ensures ends { IfErr result (λ fault. EndsAs self.old bytes.now fault self.new) }
        ensures fails { fault_in self.new.progress ≡ result_err result }
    {
        match self.hello.feed(bytes) {
            Ok(fed) => {
                self.progress = progress_after(self.hello.is_open());
                Ok(Fed {
                    used: fed.used,
                    event: event_of(fed.event),
                })
            }
            Err(fault) => {
                let fault = ServerFault::of_hello(fault);
                self.progress = Progress::Failed(fault);
                Err(fault)
            }
        }
    }
}

// What comes after a call of the handshake's end, by whether that goes on.
fn progress_after(goes_on: bool) -> Progress
    ensures { result ≡ progress_after goes_on }
{
    if goes_on {
        Progress::Handshake
    } else {
        Progress::Head(ArrayVec::new())
    }
}

// The event of a session that a step of the handshake is.
pub(crate) fn event_of(step: Option<ServerStep>) -> Option<ServerEvent>
    ensures { seen result ≡ step_told step }
{
    match step {
        None => None,
        Some(ServerStep::Reply(reply)) => Some(ServerEvent::Reply(reply)),
        Some(
            ServerStep::Ready {
                reply,
                version: _,
                shared,
            },
        ) => Some(ServerEvent::Ready { reply, shared }),
    }
}
