//! What a session takes of a slice of its client's bytes.

ghost use Rattle.std.specs.Prelude.{◌≡◌, ◌≢◌, ◌≤◌, ◌<◌, ℕ, List, length, take};
ghost use Rattle.std.specs.Prelude.{None, Some, Err, IfOk, IfErr, IfSome, OnOk, false};
ghost use Rattle.rfb_pixel.specs.declared.colour.Colour.{Colour};
ghost use Rattle.rfb_picture.specs.Grid.{Grid};
ghost use Rattle.rfb_server.specs.ClientBytes.{client_bytes_pending};
ghost use Rattle.rfb_server.specs.Server.{Serving, ServerState};
ghost use Rattle.rfb_server.specs.Progress.{fault_in, is_idle};
ghost use Rattle.rfb_server.specs.Model.{SessionStandsFor};
ghost use Rattle.rfb_server.specs.session.Sessions.{KeepsUp};
ghost use Rattle.rfb_server.specs.session.Slice.{FeedsAs, IsRequestAlone};
ghost use Rattle.rfb_server.specs.Failed.{EndsAs};
ghost use Rattle.rfb_server.specs.Counted.{IsPlacedIn};
ghost use Rattle.rfb_server.specs.declared.fault.ServerFault.{ServerFault};

use crate::event::ServerEvent;
use crate::fault::{Flaw, ServerFault};
use crate::session::Session;
use crate::session::input::progress::Progress;
use rfb_hello::Fed;
use rfb_picture::Rect;
use rfb_wire::{ClientHead, Read};

impl Session {
    ghost use Rattle.rfb_wire.specs.stream.End.{FedBy, RefusedBy, RunsOutBy, StaysFailed};
    ghost use Rattle.rfb_server.specs.declared.fault.ServerFault.TheVariants.{NoMemory};
    ghost use Rattle.rfb_server.specs.Server.{server, AsksMemory};
    ghost use Rattle.rfb_server.specs.ClientBytes.{is_between};
    ghost use Rattle.rfb_server.specs.Told.{seen};
    ghost use Rattle.rfb_server.specs.Model.{session_fault, session_serving, notes_in};
    ghost use Rattle.rfb_server.specs.KnownScreen.{Follows};
    ghost use Rattle.rfb_server.specs.Hints.{hints_in};
    ghost use Rattle.rfb_server.specs.Record.{KeepsOrForgets};

    /// Takes bytes of the client's, up to the last of its first item that makes an event, or all.
    /// Events are steps of the handshake, keys, the pointer and texts. Formats, lists and requests
    /// change the session at their last byte, and make no event. A client's fault comes at its last
    /// byte, and want of memory for a text at its length. Then the record, what is asked, the
    /// format and the list stay as the items before left them, and each later call gives the fault
    /// again and takes nothing. Up to 19 bytes are kept of what is under way, and of one text as
    /// much as fits its limit.
    pub fn feed(&mut self, bytes: &[u8]) -> Result<Fed<ServerEvent>, ServerFault>
        // What was taken, what it was, and what is left, over whatever screen.
        ensures used { IfOk result (λ fed. fed.used ≤ length bytes.now) }
        ensures all { IfOk result (λ fed. fed.event ≡ None → fed.used ≡ length bytes.now) }
        ensures some { IfOk result (λ fed. 0 < length bytes.now → 0 < fed.used) }
        ensures fed { IfOk result (λ fed. (serving : Serving) (screen : Grid Colour)
            → FedBy (server serving) (SessionStandsFor serving screen)
            self.old (take fed.used bytes.now) (seen fed.event) self.new) }
        ensures made { session_serving self.new ≡ session_serving self.old }
        ensures hints { hints_in self.new ≡ hints_in self.old }
        ensures known { KeepsOrForgets (notes_in self.old).known (notes_in self.new).known }
        ensures follows { (screen : Grid Colour) → Follows screen self.old
            → Follows screen self.new }
        ensures columns { (notes_in self.new).known.width ≡ (notes_in self.old).known.width }
        ensures rows { (notes_in self.new).known.height ≡ (notes_in self.old).known.height }

        // When a fault comes, when memory is wanting, what is kept, and that it stays.
        ensures fault { IfErr result (λ fault. fault ≢ NoMemory
            → (serving : Serving) (screen : Grid Colour)
            → RefusedBy (server serving) (SessionStandsFor serving screen)
            self.old bytes.now fault) }
        ensures memory { IfErr result (λ fault. fault ≡ NoMemory
            → (serving : Serving) (screen : Grid Colour)
            → RunsOutBy (server serving) AsksMemory (SessionStandsFor serving screen)
            self.old bytes.now) }
        ensures kept { IfErr result (λ fault. EndsAs self.old bytes.now fault self.new) }
        ensures fails { IfErr result (λ fault. session_fault self.new ≡ Some fault) }
        ensures failed { StaysFailed (session_fault self.old) self.old result self.new }
    {
        Ok(self.feed_placed(bytes)?)
    }

    /// As `feed`, and a fault says with which byte of the slice it came. One of an earlier call
    /// came with none.
    pub fn feed_placed(&mut self, bytes: &[u8]) -> Result<Fed<ServerEvent>, Flaw>
        // What was taken, what it was, and what is left, over whatever screen.
        ensures used { IfOk result (λ fed. fed.used ≤ length bytes.now) }
        ensures all { IfOk result (λ fed. fed.event ≡ None → fed.used ≡ length bytes.now) }
        ensures some { IfOk result (λ fed. 0 < length bytes.now → 0 < fed.used) }
        ensures fed { IfOk result (λ fed. (serving : Serving) (screen : Grid Colour)
            → FedBy (server serving) (SessionStandsFor serving screen)
            self.old (take fed.used bytes.now) (seen fed.event) self.new) }
        ensures made { session_serving self.new ≡ session_serving self.old }
        ensures hints { hints_in self.new ≡ hints_in self.old }
        ensures known { KeepsOrForgets (notes_in self.old).known (notes_in self.new).known }
        ensures follows { (screen : Grid Colour) → Follows screen self.old
            → Follows screen self.new }
        ensures columns { (notes_in self.new).known.width ≡ (notes_in self.old).known.width }
        ensures rows { (notes_in self.new).known.height ≡ (notes_in self.old).known.height }

        // When a fault comes, when memory is wanting, what is kept, and that it stays.
        ensures fault { IfErr result (λ flaw. flaw.fault ≢ NoMemory
            → (serving : Serving) (screen : Grid Colour)
            → RefusedBy (server serving) (SessionStandsFor serving screen)
            self.old bytes.now flaw.fault) }
        ensures memory { IfErr result (λ flaw. flaw.fault ≡ NoMemory
            → (serving : Serving) (screen : Grid Colour)
            → RunsOutBy (server serving) AsksMemory (SessionStandsFor serving screen)
            self.old bytes.now) }
        ensures kept { IfErr result (λ flaw. EndsAs self.old bytes.now flaw.fault self.new) }
        ensures fails { IfErr result (λ flaw. session_fault self.new ≡ Some flaw.fault) }
        ensures failed { (fault : ServerFault) → session_fault self.old ≡ Some fault
            → (result ≡ Err (record { used = 0; fault = fault })) × (self.new ≡ self.old) }

        // With which byte it comes.
        ensures place { IfErr result (λ flaw. session_fault self.old ≡ None
            → IsPlacedIn flaw.used flaw.fault self.old bytes.now) }
    {
        if let Some(fault) = self.fault() {
            return Err(Flaw { used: 0, fault });
        }
        self.take_items(bytes)
    }

    // The same of a session that has not failed. Most slices are one request. That makes no event,
    // so it is taken where no room for one is cleared or moved.
    fn take_items(&mut self, bytes: &[u8]) -> Result<Fed<ServerEvent>, Flaw>
        requires going { fault_in self.old.progress ≡ None }
        ensures used { IfOk result (λ fed. fed.used ≤ length bytes.now) }
        ensures all { IfOk result (λ fed. fed.event ≡ None → fed.used ≡ length bytes.now) }
        ensures some { IfOk result (λ fed. 0 < length bytes.now → 0 < fed.used) }
        ensures fed { IfOk result (λ fed.
            FeedsAs self.old (take fed.used bytes.now) fed.event self.new) }
        ensures up { KeepsUp self.old self.new }
        ensures ends { IfErr result (λ flaw. EndsAs self.old bytes.now flaw.fault self.new) }
        ensures fails { IfErr result (λ flaw. fault_in self.new.progress ≡ Some flaw.fault) }
        ensures place { IfErr result (λ flaw.
            IsPlacedIn flaw.used flaw.fault self.old bytes.now) }
    {
        match self.request_alone(bytes) {
            Some((incremental, rect)) => {
                self.request(incremental, rect);
                Ok(Fed {
                    used: bytes.len(),
                    event: None,
                })
            }
            None => self.take_each(bytes),
        }
    }

    // The request that the bytes are, where they are that and no more, and no message has begun.
    fn request_alone(&self, bytes: &[u8]) -> Option<(bool, Rect)>
        ensures { IfSome result (λ asked.
            IsRequestAlone self.now bytes.now asked.0 asked.1) }
    {
        let Progress::Head(part) = &self.progress else {
            return None;
        };
        if part.len() != 0 {
            return None;
        }
        let Read::Got(head, size) = ClientHead::read(bytes) else {
            return None;
        };
        if size != bytes.len() {
            return None;
        }
        match head {
            ClientHead::Request { incremental, rect } => Some((incremental, rect)),
            _ => None,
        }
    }

    // The same item by item.
    #[inline(never)]
    fn take_each(&mut self, bytes: &[u8]) -> Result<Fed<ServerEvent>, Flaw>
        requires going { fault_in self.old.progress ≡ None }
        ensures used { IfOk result (λ fed. fed.used ≤ length bytes.now) }
        ensures all { IfOk result (λ fed. fed.event ≡ None → fed.used ≡ length bytes.now) }
        ensures some { IfOk result (λ fed. 0 < length bytes.now → 0 < fed.used) }
        ensures fed { IfOk result (λ fed.
            FeedsAs self.old (take fed.used bytes.now) fed.event self.new) }
        ensures up { KeepsUp self.old self.new }
        ensures ends { IfErr result (λ flaw. EndsAs self.old bytes.now flaw.fault self.new) }
        ensures fails { IfErr result (λ flaw. fault_in self.new.progress ≡ Some flaw.fault) }
        ensures place { IfErr result (λ flaw.
            IsPlacedIn flaw.used flaw.fault self.old bytes.now) }
    {
        let mut used = 0;
        while used < bytes.len() {
            let fed = match self.take(&bytes[used..]) {
                Ok(fed) => fed,
                Err(flaw) => {
                    return Err(Flaw {
                        used: used + flaw.used,
                        fault: flaw.fault,
                    });
                }
            };
            used += fed.used;
            if fed.event.is_some() {
                return Ok(Fed {
                    used,
                    event: fed.event,
                });
            }
        }
        Ok(Fed { used, event: None })
    }

    // Takes bytes of the client's next item, as many of it as there are.
    fn take(&mut self, bytes: &[u8]) -> Result<Fed<ServerEvent>, Flaw>
        requires some { 0 < length bytes.now }
        requires going { fault_in self.old.progress ≡ None }
        ensures used { IfOk result (λ fed. (0 < fed.used) × (fed.used ≤ length bytes.now)) }
        ensures fed { IfOk result (λ fed.
            FeedsAs self.old (take fed.used bytes.now) fed.event self.new) }
        ensures going { OnOk result (fault_in self.new.progress ≡ None) }
        ensures up { KeepsUp self.old self.new }
        ensures ends { IfErr result (λ flaw. EndsAs self.old bytes.now flaw.fault self.new) }
        ensures fails { IfErr result (λ flaw. fault_in self.new.progress ≡ Some flaw.fault) }
        ensures place { IfErr result (λ flaw.
            IsPlacedIn flaw.used flaw.fault self.old bytes.now) }
    {
        match self.progress {
            Progress::Handshake => match self.greet(&bytes[..1]) {
                Ok(fed) => Ok(fed),
                Err(fault) => Err(Flaw { used: 1, fault }),
            },
            Progress::Head(_) => {
                let (used, told) = self.take_head(bytes);
                match told {
                    Ok(event) => Ok(Fed { used, event }),
                    Err(fault) => Err(Flaw { used, fault }),
                }
            }
            Progress::Encodings { .. } => {
                let used = self.take_number(bytes);
                Ok(Fed { used, event: None })
            }
            Progress::CutText { .. } => {
                let (used, event) = self.take_text(bytes);
                Ok(Fed { used, event })
            }
            Progress::Failed(_) => unreachable!(),
        }
    }

    /// The fault that it has failed with, if it has.
    pub fn fault(&self) -> Option<ServerFault>
        ensures { result ≡ session_fault self.now }
    {
        match &self.progress {
            Progress::Failed(fault) => Some(*fault),
            _ => None,
        }
    }

    /// Whether the client's bytes end between two messages: the handshake is done, no message has
    /// begun, and no fault was returned.
    pub fn between(&self) -> bool
        ensures value { (serving : Serving) (screen : Grid Colour) (s : ServerState)
            (prefix : List ℕ) → SessionStandsFor serving screen self.now s prefix
            → result ≡ is_between s.point prefix }
        ensures failed { session_fault self.now ≢ None → result ≡ false }
    {
        self.is_idle()
    }

    // Whether it waits for a message, and no byte of it has come.
    pub(crate) fn is_idle(&self) -> bool
        ensures { result ≡ is_idle self.now.progress }
    {
        match &self.progress {
            Progress::Head(part) => part.len() == 0,
            _ => false,
        }
    }

    /// How many bytes are pending: those of the client's item under way after its last whole piece.
    /// It keeps no others, but the first bytes of a text.
    pub fn pending(&self) -> usize
        ensures value { (serving : Serving) (screen : Grid Colour) (s : ServerState)
            (prefix : List ℕ) → SessionStandsFor serving screen self.now s prefix
            → result ≡ client_bytes_pending s.point prefix }
        ensures few { result < 20 }
        ensures failed { session_fault self.now ≢ None → result ≡ 0 }
    {
        match &self.progress {
            Progress::Handshake => self.hello.pending(),
            Progress::Head(part) => part.len(),
            Progress::Encodings { number, .. } => number.len(),
            Progress::CutText { .. } | Progress::Failed(_) => 0,
        }
    }
}
