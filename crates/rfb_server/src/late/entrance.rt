//! What a session has before it has the memory of its places.

ghost use Rattle.std.specs.Prelude.{◌≡◌, ◌≤◌, ◌<◌, length, true, None, Some, IfOk, IfErr, Err};
ghost use Rattle.rfb_hello.specs.ServerModel.{left_of};
ghost use Rattle.rfb_picture.specs.Area.{no_places};
ghost use Rattle.rfb_picture.specs.Grid.{Grid};
ghost use Rattle.rfb_pixel.specs.declared.colour.Colour.{Colour};
ghost use Rattle.rfb_server.specs.Hints.{hints_in};
ghost use Rattle.rfb_server.specs.KnownScreen.{Follows};
ghost use Rattle.rfb_server.specs.Model.{notes_in, session_fault, session_serving, serving_with};
ghost use Rattle.rfb_server.specs.Progress.{is_partial};
ghost use Rattle.rfb_server.specs.declared.fault.ServerFault.{ServerFault};
ghost use Rattle.rfb_server.specs.session.Ended.{progress_at};
ghost use Rattle.rfb_server.specs.session.Marks.{AreAlike, none_known, all_marked};

use crate::drawing::Notice;
use crate::event::ServerEvent;
use crate::fault::ServerFault;
use crate::hint::{Hint, MAX_HINTS};
use crate::session::event_of;
use crate::setup::ServerSetup;
use circular_buffer::HeapCircularBuffer;
use rfb_hello::{Fed, ServerHello};
use std::alloc::{AllocError, Global};

/// All of a session in its handshake but what it tracks of places: of none is anything known or
/// asked yet, and each is marked.
#[derive(Debug, Drop)]
pub(crate) struct Entrance {
    pub alloc: Global,
    pub hello: ServerHello,
    /// The fault that it has failed with, if it has.
    pub ended: Option<ServerFault>,
    pub text_limit: u32,
    pub width: u16,
    pub height: u16,
    pub hints: HeapCircularBuffer<Hint>,
    ghost alike: { AreAlike (none_known width height) (no_places width height)
        (all_marked width height) },
    ghost partial: { is_partial hello (progress_at ended) ≡ true },
    ghost sixteen: { hints.capacity ≡ 16 },
}

impl Entrance {
    ghost use Rattle.rfb_server.specs.Failed.{EndsAs};
    ghost use Rattle.rfb_server.specs.Intake.{IsUnfed, Takes, TakesNotice};
    ghost use Rattle.rfb_server.specs.Late.{entered};

    /// One of a session that was fed nothing, as `Session::new` makes it. It asks for the memory of
    /// its hints; where there is none it gives the error.
    pub fn new(alloc: Global, setup: ServerSetup) -> Result<Entrance, AllocError>
        requires sides { (setup.width ≤ 4096) × (setup.height ≤ 4096) }
        requires name { length setup.name.now ≤ 255 }
        ensures { let setup = setup.entry in
            let serving = serving_with setup.offer setup.width setup.height setup.name.now
            setup.text_limit in
            IfOk result (λ entrance. IsUnfed serving (entered entrance)) }
    {
        let hints = HeapCircularBuffer::with_capacity(alloc, MAX_HINTS)?;
        Ok(Entrance {
            alloc,
            hello: ServerHello::new(setup.offer, setup.width, setup.height, setup.name),
            ended: None,
            text_limit: setup.text_limit,
            width: setup.width,
            height: setup.height,
            hints,
        })
    }

    /// One in the place of another that was taken away.
    pub fn blank(alloc: Global) -> Result<Entrance, AllocError> {
        Entrance::new(alloc, ServerSetup::usual(0, 0, b""))
    }

    /// Takes bytes of the client's handshake, fewer than it has left, up to the last of its first
    /// step that makes an event, or all.
    pub fn greet(&mut self, bytes: &[u8]) -> Result<Fed<ServerEvent>, ServerFault>
        requires fewer { self.old.ended ≡ None → length bytes.now < left_of self.old.hello }
        ensures takes { IfOk result (λ fed.
            Takes bytes.now fed (entered self.old) (entered self.new)) }
        ensures made { session_serving (entered self.new) ≡ session_serving (entered self.old) }
        ensures hints { hints_in (entered self.new) ≡ hints_in (entered self.old) }
        ensures known { (notes_in (entered self.new)).known ≡ (notes_in (entered self.old)).known }
        ensures follows { (screen : Grid Colour) → Follows screen (entered self.old)
            → Follows screen (entered self.new) }
        ensures kept { IfErr result (λ fault.
            EndsAs (entered self.old) bytes.now fault (entered self.new)) }
        ensures fails { IfErr result (λ fault. session_fault (entered self.new) ≡ Some fault) }
        ensures failed { (fault : ServerFault) → self.old.ended ≡ Some fault
            → (result ≡ Err fault) × (self.new ≡ self.old) }
    {
        if let Some(fault) = self.ended {
            return Err(fault);
        }
        match self.hello.feed(bytes) {
            Ok(fed) => Ok(Fed {
                used: fed.used,
                event: event_of(fed.event),
            }),
            Err(fault) => {
                let fault = ServerFault::of_hello(fault);
                self.ended = Some(fault);
                Err(fault)
            }
        }
    }

    /// Keeps the hint of a drawing. Where it was drawn is marked already.
    pub fn hinted(&mut self, notice: &Notice)
        ensures { TakesNotice notice.now (entered self.old) (entered self.new) }
    {
        if let Some(hint) = notice.hint {
            self.hints.push_back(hint);
        }
    }
}
