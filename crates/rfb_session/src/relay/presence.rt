//! Whether the server of a relay is there.

ghost use Rattle.std.specs.Prelude.{◌≡◌};

use crate::relay::Gone;

/// Whether the server is there, and whether its picture is shown.
#[derive(Clone, Copy, Debug, PartialEq, Eq)]
pub(crate) enum Presence {
    /// It is there, and its first update is not whole yet.
    Coming,
    /// Its picture is shown.
    Shown,
    /// It went away.
    Gone(Gone, Recall),
}

/// When a server that went away is called again, if that is wanted.
#[derive(Clone, Copy, Debug, PartialEq, Eq)]
pub(crate) enum Recall {
    /// No turn has given the time since it went.
    Unplanned,
    /// At this time.
    At(u64),
    /// Now: this time has come.
    Due(u64),
}

impl Presence {
    ghost use Rattle.rfb_session.specs.relay.Presence.{is_gone, is_shown, is_called, call_time};
    ghost use Rattle.rfb_session.specs.relay.Presence.{planned};

    /// Whether the server has gone away.
    pub(crate) fn is_gone(&self) -> bool
        ensures { result ≡ is_gone self.now }
    {
        match self {
            Presence::Coming | Presence::Shown => false,
            Presence::Gone(..) => true,
        }
    }

    /// Whether its picture is shown, and it may be told what viewers do.
    pub(crate) fn is_shown(&self) -> bool
        ensures { result ≡ is_shown self.now }
    {
        match self {
            Presence::Shown => true,
            Presence::Coming | Presence::Gone(..) => false,
        }
    }

    /// Whether it is to be called now.
    pub(crate) fn is_called(&self) -> bool
        ensures { result ≡ is_called self.now }
    {
        match self {
            Presence::Gone(_, Recall::Due(_)) => true,
            Presence::Coming | Presence::Shown | Presence::Gone(..) => false,
        }
    }

    /// When it is to be called, if a turn has given the time since it went. It may have come.
    pub(crate) fn call_time(&self) -> Option<u64>
        ensures { result ≡ call_time self.now }
    {
        match self {
            Presence::Gone(_, Recall::At(time) | Recall::Due(time)) => Some(*time),
            Presence::Coming | Presence::Shown | Presence::Gone(..) => None,
        }
    }

    /// The same at this time, where one that went is called after such a pause.
    pub(crate) fn planned(self, now: u64, pause: u64) -> Presence
        ensures { result ≡ planned now pause self }
    {
        match self {
            Presence::Gone(how, recall) => Presence::Gone(how, recall.planned(now, pause)),
            Presence::Coming | Presence::Shown => self,
        }
    }
}

impl Recall {
    ghost use Rattle.rfb_session.specs.relay.Presence.{recall_planned};

    // A call for which nobody came is made again after the same pause.
    fn planned(self, now: u64, pause: u64) -> Recall
        ensures { result ≡ recall_planned now pause self }
    {
        match self {
            Recall::At(time) if time <= now => Recall::Due(time),
            Recall::At(_) => self,
            Recall::Unplanned | Recall::Due(_) => Recall::At(now.saturating_add(pause)),
        }
    }
}
