//! A viewer: a picture, and how far the server's bytes have come.

ghost use Rattle.std.specs.Prelude.{◌≡◌, ◌≢◌, ◌≤◌, ◌<◌, ℕ, List, [], length, take, true, IfOk};
ghost use Rattle.std.specs.Prelude.{IfErr, None, Some};
ghost use Rattle.rfb_viewer.specs.steps.Sound.{is_sound};

mod after;
mod calls;
mod damage;
mod greeting;
mod lending;
mod messages;
pub(crate) mod moved;
mod progress;
mod updates;

use crate::event::ViewerEvent;
use crate::fault::ViewerFault;
use crate::setup::ViewerSetup;
use arrayvec::ArrayVec;
use damage::Edges;
use moved::{MAX_MOVES, Move};
use progress::{Failure, Progress, Request};
use rfb_hello::{Fed, Version, ViewerHello};
use rfb_picture::Picture;
use rfb_pixel::{Colour, Format};
use rfb_wire::Encoding;
use std::alloc::Global;

/// A viewer of one server. The owner feeds it what the server sends, sends the server what it
/// answers and what calls on it answer, and shows its picture.
#[derive(Debug, Drop)]
pub struct Viewer {
    alloc: Global,
    hello: ViewerHello,
    format: Format,
    encodings: ArrayVec<Encoding, 4>,
    text_limit: u32,
    picture: Option<Picture<Colour>>,
    damage: Option<Edges>,
    moved: ArrayVec<Move, MAX_MOVES>,
    request: Request,
    progress: Progress,
    taken: u64,
    ghost sound: { is_sound hello progress picture ≡ true },
}

impl Viewer {
    ghost use Rattle.rfb_wire.specs.stream.End.{FedBy, RefusedBy, RunsOutBy, StaysFailed};
    ghost use Rattle.rfb_viewer.specs.declared.fault.ViewerFault.TheVariants.{NoMemory};
    ghost use Rattle.rfb_viewer.specs.Told.{seen};
    ghost use Rattle.rfb_viewer.specs.Viewer.{Viewing, ViewerState, viewer, first_viewer};
    ghost use Rattle.rfb_viewer.specs.Viewer.{AsksMemory};
    ghost use Rattle.rfb_viewer.specs.Model.{StandsFor, viewing_with, fault_of, making_of};
    ghost use Rattle.rfb_viewer.specs.Model.{offered_of, picture_of, taken_of};
    ghost use Rattle.rfb_viewer.specs.Damage.{damage_of, ended_of, damaging, IsDamaged};
    ghost use Rattle.rfb_viewer.specs.Damage.{IsSameOutside, KeepsDamage};
    ghost use Rattle.rfb_viewer.specs.Moved.{moved_of, moving, HasMoved, KeepsMoved};
    ghost use Rattle.rfb_viewer.specs.steps.Sound.{IsElsewhere};
    ghost use Rattle.rfb_viewer.specs.steps.StepPromises.{Steps, TakesAll};
    ghost use Rattle.rfb_viewer.specs.Failed.{KeepsPicture, KeepsReason};
    ghost use Rattle.rfb_viewer.specs.Offer.{KeepsOffer, TakesOffer};
    ghost use Rattle.rfb_hello.specs.declared.offered.Offered.TheVariants.{Nothing};
    ghost use Rattle.rfb_viewer.specs.Counted.{CountsTo};
    ghost use Rattle.rfb_wire.specs.stream.FaultPlace.{counted_on};

    /// A viewer that was fed nothing. It goes up to version `limit`, asks for the screen alone
    /// where it is not `shared`, admits a screen of `max_places` places, and keeps `text_limit`
    /// bytes of each text. Once the handshake is done it asks for updates in `format`, in one of
    /// `encodings`, the best first. It takes no memory.
    pub fn new(
        alloc: Global,
        format: Format,
        encodings: ArrayVec<Encoding, 4>,
        limit: Version,
        shared: bool,
        max_places: u32,
        text_limit: u32,
    ) -> Viewer
        ensures stands { let viewing =
            viewing_with format encodings.items limit shared max_places text_limit in
            StandsFor viewing result first_viewer [] }
        ensures damage { ended_of result ≡ None }
        ensures moved { moved_of result ≡ [] }
        ensures offered { offered_of result ≡ Nothing }
        ensures taken { taken_of result ≡ 0 }
    {
        Viewer {
            alloc,
            hello: ViewerHello::new(alloc, limit, shared, max_places, text_limit),
            format,
            encodings,
            text_limit,
            picture: None,
            damage: None,
            moved: ArrayVec::new(),
            request: Request::Answered,
            progress: Progress::Handshake,
            taken: 0,
        }
    }

    /// A viewer as `new` makes it, of these.
    pub fn of(alloc: Global, setup: ViewerSetup) -> Viewer
        ensures stands { let viewing = viewing_with setup.format setup.encodings.items setup.limit
            setup.shared setup.max_places setup.text_limit in
            StandsFor viewing result first_viewer [] }
        ensures damage { ended_of result ≡ None }
        ensures moved { moved_of result ≡ [] }
        ensures offered { offered_of result ≡ Nothing }
        ensures taken { taken_of result ≡ 0 }
    {
        Viewer::new(
            alloc,
            setup.format,
            setup.encodings,
            setup.limit,
            setup.shared,
            setup.max_places,
            setup.text_limit,
        )
    }

    /// Takes bytes of the server's, up to the last byte of its first item that gives an event, or
    /// all. A fault is returned at its last byte, and by every later call, which takes nothing.
    /// `NoMemory` comes only where the screen is made, and at the length of a text.
    pub fn feed(&mut self, bytes: &[u8]) -> Result<Fed<ViewerEvent>, ViewerFault>
        // What was taken, what it was, and what is left.
        ensures used { IfOk result (λ fed. fed.used ≤ length bytes.now) }
        ensures all { IfOk result (λ fed. fed.event ≡ None → fed.used ≡ length bytes.now) }
        ensures some { IfOk result (λ fed. 0 < length bytes.now → 0 < fed.used) }
        ensures fed { IfOk result (λ fed. (viewing : Viewing)
            → FedBy (viewer viewing) (StandsFor viewing)
            self.old (take fed.used bytes.now) (seen fed.event) self.new) }
        ensures made { making_of self.new ≡ making_of self.old }
        ensures offered { IfOk result (λ fed.
            TakesOffer (seen fed.event) self.old bytes.now self.new) }

        // What of the picture it changes, and the damage that it makes.
        ensures outside { (viewing : Viewing) (s : ViewerState) (prefix : List ℕ)
            → StandsFor viewing self.old s prefix
            → IsSameOutside (damage_of self.new) (picture_of self.old) (picture_of self.new) }
        ensures damage { IfOk result (λ fed. (viewing : Viewing)
            → FedBy (damaging viewing) (IsDamaged viewing)
            self.old (take fed.used bytes.now) (seen fed.event) self.new) }
        ensures damaged { IfErr result (λ fault. fault_of self.old ≡ None
            → KeepsDamage fault self.old bytes.now self.new) }

        // The copies within it.
        ensures moved { IfOk result (λ fed. (viewing : Viewing)
            → FedBy (moving viewing) (HasMoved viewing)
            self.old (take fed.used bytes.now) (seen fed.event) self.new) }
        ensures unmoved { IfErr result (λ fault. fault_of self.old ≡ None
            → KeepsMoved fault self.old bytes.now self.new) }

        // When a fault comes, when memory is wanting, what is kept, and that it stays.
        ensures fault { IfErr result (λ fault. fault ≢ NoMemory → (viewing : Viewing)
            → RefusedBy (viewer viewing) (StandsFor viewing) self.old bytes.now fault) }
        ensures memory { IfErr result (λ fault. fault ≡ NoMemory → (viewing : Viewing)
            → RunsOutBy (viewer viewing) (AsksMemory viewing) (StandsFor viewing)
            self.old bytes.now) }
        ensures picture { IfErr result (λ fault. fault_of self.old ≡ None
            → KeepsPicture fault self.old bytes.now self.new) }
        ensures reason { IfErr result (λ fault. fault_of self.old ≡ None
            → KeepsReason fault self.old bytes.now self.new) }
        ensures offer { IfErr result (λ fault. fault_of self.old ≡ None
            → KeepsOffer fault self.old bytes.now self.new) }
        ensures fails { IfErr result (λ fault. fault_of self.new ≡ Some fault) }
        ensures failed { StaysFailed (fault_of self.old) self.old result self.new }

        // How many bytes were used in all, at a fault up to the byte with which it came.
        ensures taken { IfOk result (λ fed.
            taken_of self.new ≡ counted_on (taken_of self.old) fed.used) }
        ensures place { IfErr result (λ fault. fault_of self.old ≡ None
            → CountsTo fault self.old bytes.now self.new) }
    {
        if let Progress::Failed(fault) = self.progress {
            return Err(fault);
        }
        let mut used = 0;
        let result = self.take_all(bytes, &mut used);
        self.taken = self.taken.saturating_add(used as u64);
        result
    }

    // Takes the same bytes where the viewer has not failed. `used` is how many these are, at a
    // fault those up to the byte with which it came. It is a call, so that it writes its event
    // where that is wanted.
    #[inline(never)]
    fn take_all(&mut self, bytes: &[u8], used: &mut usize) -> Result<Fed<ViewerEvent>, ViewerFault>
        requires none { used.old ≡ 0 }
        requires going { fault_of self.old ≡ None }
        ensures { TakesAll self.old bytes.now used.new result self.new }
    {
        while *used < bytes.len() {
            if let Progress::Data { .. } = self.progress {
                let painted = match self.take_data(&bytes[*used..]) {
                    Ok(painted) => painted,
                    Err(failure) => {
                        *used += failure.used;
                        return Err(failure.fault);
                    }
                };
                *used += painted.used;
                if painted.ends_update {
                    return Ok(Fed {
                        used: *used,
                        event: Some(ViewerEvent::UpdateDone),
                    });
                }
            } else if let Some(whole) = self.take_update(&bytes[*used..]) {
                *used += whole;
                return Ok(Fed {
                    used: *used,
                    event: Some(ViewerEvent::UpdateDone),
                });
            } else {
                let fed = match self.take(&bytes[*used..]) {
                    Ok(fed) => fed,
                    Err(failure) => {
                        *used += failure.used;
                        return Err(failure.fault);
                    }
                };
                *used += fed.used;
                if fed.event.is_some() {
                    return Ok(Fed {
                        used: *used,
                        event: fed.event,
                    });
                }
            }
        }
        Ok(Fed {
            used: *used,
            event: None,
        })
    }

    // Takes bytes of the server's next item but a rectangle's data, as many of it as there are. It
    // is not inlined, since data that come byte by byte need none of it.
    #[inline(never)]
    fn take(&mut self, bytes: &[u8]) -> Result<Fed<ViewerEvent>, Failure>
        requires some { 0 < length bytes.now }
        requires going { fault_of self.old ≡ None }
        requires elsewhere { IsElsewhere self.old.progress }
        ensures { Steps self.old bytes.now result self.new }
    {
        match self.progress {
            Progress::Handshake => self.greet(&bytes[..1]),
            Progress::Head(_) => self.take_head(bytes),
            Progress::RectHead { .. } => self.take_rect_head(bytes),
            Progress::Colours { .. } => Ok(self.skip_colours(bytes)),
            Progress::CutText { .. } => Ok(self.take_text(bytes)),
            Progress::Data { .. } | Progress::Failed(_) => unreachable!(),
        }
    }
}
