//! What a step answers.

ghost use Rattle.std.specs.Prelude.{◌≡◌, false, None, Some};
ghost use Rattle.rfb_session.specs.Told.{refused_as};

use rfb_viewer::CallFault;
use std::alloc::AllocError;
use thiserror::Error;

/// Why an event is refused. Nothing was changed then.
#[derive(Clone, Copy, Debug, PartialEq, Eq, Error)]
pub enum Refused {
    /// A drawing or a hint leaves the screen.
    #[error("24 Outside")]
    Outside,
    /// The viewer's handshake is not done.
    #[error("25 NotReady")]
    NotReady,
    /// A request is outstanding; or, for a format, the viewer is inside an update.
    #[error("26 Busy")]
    Busy,
    /// The area that is asked for has no place, or leaves the screen.
    #[error("27 AreaOutside")]
    AreaOutside,
}

impl From<CallFault> for Refused {
    fn from(fault: CallFault) -> Refused
        ensures { Some result ≡ refused_as (Some fault) }
    {
        match fault {
            CallFault::NotReady => Refused::NotReady,
            CallFault::Busy => Refused::Busy,
            CallFault::AreaOutside => Refused::AreaOutside,
        }
    }
}

/// What became of an event.
#[derive(Clone, Copy, Debug, PartialEq, Eq)]
pub struct Told {
    /// How many bytes a delivery moved, 0 at any other event.
    pub moved: u32,
    /// The refusal of a drawing, a hint or a call, if it was refused.
    pub refused: Option<Refused>,
    /// Whether an update was composed.
    pub composed: bool,
}

impl Told {
    /// It was taken, and nothing was moved or composed.
    pub(crate) fn taken() -> Told
        ensures moved { result.moved ≡ 0 }
        ensures refused { result.refused ≡ None }
        ensures composed { result.composed ≡ false }
    {
        Told {
            moved: 0,
            refused: None,
            composed: false,
        }
    }

    /// It was refused so.
    pub(crate) fn of_refusal(refusal: Refused) -> Told
        ensures moved { result.moved ≡ 0 }
        ensures refused { result.refused ≡ Some refusal }
        ensures composed { result.composed ≡ false }
    {
        Told {
            refused: Some(refusal),
            ..Told::taken()
        }
    }

    /// A delivery that moved so many bytes.
    pub(crate) fn of_moved(moved: u32) -> Told
        ensures moved { result.moved ≡ moved }
        ensures refused { result.refused ≡ None }
        ensures composed { result.composed ≡ false }
    {
        Told {
            moved,
            ..Told::taken()
        }
    }

    /// A composing that made an update, or found none due.
    pub(crate) fn of_composed(composed: bool) -> Told
        ensures moved { result.moved ≡ 0 }
        ensures refused { result.refused ≡ None }
        ensures composed { result.composed ≡ composed }
    {
        Told {
            composed,
            ..Told::taken()
        }
    }
}

/// What became of a delivery to a session.
#[derive(Clone, Copy, Debug, PartialEq, Eq)]
pub struct Delivery {
    pub told: Told,
    /// Whether the client asked for the screen alone among the bytes: its ClientInit, RFC 6143
    /// section 7.3.1, has shared-flag 0.
    pub sole: bool,
}

/// There is no memory. The world is closed.
#[derive(Clone, Copy, Debug, PartialEq, Eq, Error)]
#[error("30 NoMemory")]
pub struct NoMemory;

impl From<AllocError> for NoMemory {
    fn from(_error: AllocError) -> NoMemory {
        NoMemory
    }
}
