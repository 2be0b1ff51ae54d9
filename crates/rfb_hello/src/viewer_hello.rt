//! The viewer's end of a handshake.

ghost use Rattle.std.specs.Prelude.{◌≡◌, ◌≢◌, ◌≤◌, ◌<◌, ℕ, List, [], length, take, true, false};
ghost use Rattle.std.specs.Prelude.{IfOk, IfErr, Some, None, Ok, Err};
ghost use Rattle.rfb_wire.specs.stream.End.{FedBy, RefusedBy, RunsOutBy, StaysFailed};
ghost use Rattle.rfb_hello.specs.KeptText.{no_text};
ghost use Rattle.rfb_hello.specs.ServerHandshake.{AwaitsVersion, ServerPoint};
ghost use Rattle.rfb_hello.specs.PendingBytes.{server_handshake_pending};
ghost use Rattle.rfb_hello.specs.ViewerEnd.{ViewerSetup, viewer_end, AsksMemory};
ghost use Rattle.rfb_hello.specs.Offer.{KeepsOffer, TakesOffer, offered_of};
ghost use Rattle.rfb_hello.specs.declared.offered.Offered.TheVariants.{Nothing};
ghost use Rattle.rfb_hello.specs.ViewerModel.{KeepsReason, StandsFor, fault_of, goes_on_after};
ghost use Rattle.rfb_hello.specs.ViewerModel.{is_open, reason_of, setup_of};
ghost use Rattle.rfb_hello.specs.pieces.ViewerPiece.{TakesPiece};
ghost use Rattle.rfb_hello.specs.declared.fault.HelloFault.TheVariants.{NoMemory};
ghost use Rattle.rfb_hello.specs.declared.viewer_hello.progress.Progress.{Progress};

mod progress;
mod security;
mod texts;
mod type_list;

use crate::fault::HelloFault;
use crate::fed::Fed;
use crate::offered::Offered;
use crate::step::ViewerStep;
use crate::text::Text;
use crate::version::Version;
use crate::viewer_hello::progress::Progress;
use arrayvec::ArrayVec;
use std::alloc::Global;

// How many bytes of an item were taken, and the item's event once it is whole.
type Taken = (usize, Result<Option<ViewerStep>, HelloFault>);

/// The viewer's end of a handshake. It is fed what the server sends, and returns what is to be sent
/// back, the screen's size and its name. It takes security type None alone. It takes memory for a
/// name or a reason alone, as much as is kept of it, once its length is known.
#[derive(Debug, Drop)]
pub struct ViewerHello {
    alloc: Global,
    limit: Version,
    shared: bool,
    max_places: u32,
    text_limit: u32,
    offered: Offered,
    progress: Progress,
}

impl ViewerHello {
    /// An end that has sent nothing and was fed nothing. It goes up to version `limit`, asks for
    /// the screen alone where it is not `shared`, admits a screen of `max_places` places, and keeps
    /// `text_limit` bytes of a name or a reason. It takes no memory.
    pub fn new(
        alloc: Global,
        limit: Version,
        shared: bool,
        max_places: u32,
        text_limit: u32,
    ) -> ViewerHello
        ensures stands { StandsFor
            (record {
              limit = limit;
              shared = shared;
              max_places = max_places;
              text_limit = text_limit;
            })
            result AwaitsVersion [] }
        ensures offered { offered_of result ≡ Nothing }
    {
        ViewerHello {
            alloc,
            limit,
            shared,
            max_places,
            text_limit,
            offered: Offered::Nothing,
            progress: Progress::Version(ArrayVec::new()),
        }
    }

    /// Takes bytes of the server's: up to the last byte of the first item with an event, else all.
    /// A fault is returned at its last byte, and by every later call; these take nothing. A
    /// refusal is returned at the last byte of its reason. Once the handshake is done no bytes are
    /// taken: they are messages.
    pub fn feed(&mut self, bytes: &[u8]) -> Result<Fed<ViewerStep>, HelloFault>
        // What was taken, what it was, and what is left.
        ensures used { IfOk result (λ fed. fed.used ≤ length bytes.now) }
        ensures all { IfOk result (λ fed. fed.event ≡ None
            → is_open self.old ≡ true → fed.used ≡ length bytes.now) }
        ensures some { IfOk result (λ fed. is_open self.old ≡ true
            → 0 < length bytes.now → 0 < fed.used) }
        ensures fed { IfOk result (λ fed. (setup : ViewerSetup)
            → FedBy (viewer_end setup) (StandsFor setup)
            self.old (take fed.used bytes.now) fed.event self.new) }
        ensures ready { IfOk result (λ fed. is_open self.old ≡ true
            → is_open self.new ≡ goes_on_after fed.event) }
        ensures setup { setup_of self.new ≡ setup_of self.old }
        ensures offered { IfOk result (λ fed.
            TakesOffer fed.event self.old bytes.now self.new) }

        // When a fault comes, when memory is wanting, and that it stays.
        ensures fault { IfErr result (λ fault. fault ≢ NoMemory → (setup : ViewerSetup)
            → RefusedBy (viewer_end setup) (StandsFor setup) self.old bytes.now fault) }
        ensures memory { IfErr result (λ fault. fault ≡ NoMemory → (setup : ViewerSetup)
            → RunsOutBy (viewer_end setup) (AsksMemory setup) (StandsFor setup)
            self.old bytes.now) }
        ensures reason { IfErr result (λ fault. fault_of self.old ≡ None
            → KeepsReason fault self.old bytes.now self.new) }
        ensures offer { IfErr result (λ fault. fault_of self.old ≡ None
            → KeepsOffer fault self.old bytes.now self.new) }
        ensures fails { IfErr result (λ fault. fault_of self.new ≡ Some fault) }
        ensures failed { StaysFailed (fault_of self.old) self.old result self.new }
    {
        if let Progress::Failed(fault, _) = self.progress {
            return Err(fault);
        }
        let mut used = 0;
        while used < bytes.len() && self.is_open() {
            let (n, told) = self.take(&bytes[used..]);
            used += n;
            let event = told?;
            if event.is_some() {
                return Ok(Fed { used, event });
            }
        }
        Ok(Fed { used, event: None })
    }

    /// What is kept of the reason that the server gave, after `Refused` and `SecurityFailed`;
    /// before a fault, and after another, no bytes. What they are encoded in is the server's
    /// matter.
    pub fn reason(&self) -> &[u8]
        ensures { result.now ≡ (reason_of self.now).bytes }
    {
        if let Progress::Failed(_, kept) = &self.progress {
            kept.as_slice()
        } else {
            &[]
        }
    }

    /// The security types that the server offered, RFC 6143 section 7.1.2: nothing until all of
    /// them have come, and from then on exactly these, also after a fault. After `NoneNotOffered`
    /// and `BadSecurityWord` they are those that were refused.
    pub fn offered(&self) -> &Offered
        ensures { result.now ≡ offered_of self.now }
    {
        &self.offered
    }

    /// Whether the server's bytes go on in the handshake: it is not done, and has not failed.
    pub fn is_open(&self) -> bool
        ensures { result ≡ is_open self.now }
    {
        self.progress.is_open()
    }

    /// How many bytes are pending: those of the server's next item after its last whole piece. It
    /// keeps no others, but security types and the first bytes of a text.
    pub fn pending(&self) -> usize
        ensures value { (setup : ViewerSetup) (point : ServerPoint) (prefix : List ℕ)
            → StandsFor setup self.now point prefix
            → result ≡ server_handshake_pending point prefix }
        ensures few { result ≤ 23 }
        ensures closed { is_open self.now ≡ false → result ≡ 0 }
    {
        self.progress.part()
    }

    // Takes bytes of the server's next item, as many of it as there are. Returns how many these
    // were, and the item's event once it is whole.
    fn take(&mut self, bytes: &[u8]) -> Taken
        requires some { 0 < length bytes.now }
        requires open { is_open self.old ≡ true }
        ensures { TakesPiece self.old bytes.now result.0 result.1 self.new }
    {
        match self.progress {
            Progress::Version(_) => self.take_version(bytes),
            Progress::Word(_) => self.take_word(bytes),
            Progress::Count(version) => {
                self.take_count(version, bytes[0]);
                (1, Ok(None))
            }
            Progress::Types { .. } => self.take_types(bytes),
            Progress::Result(..) => self.take_result(bytes),
            Progress::ReasonLength { .. } => self.take_reason_length(bytes),
            Progress::Reason { .. } => self.take_reason(bytes),
            Progress::Init(..) => self.take_init(bytes),
            Progress::Name { .. } => self.take_name(bytes),
            Progress::Done | Progress::Failed(..) => unreachable!(),
        }
    }

    // Holds a fault from now on, for which no reason was given.
    fn fail(&mut self, fault: HelloFault) -> HelloFault
        ensures value { result ≡ fault }
        ensures after { self.new ≡ record self.old { progress = Progress.Failed fault no_text } }
    {
        self.progress = Progress::Failed(fault, Text::empty(self.alloc));
        fault
    }
}

#[cfg(test)]
mod tests;
