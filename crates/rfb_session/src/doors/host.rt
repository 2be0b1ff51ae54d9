//! Who comes, and where they are let in.

ghost use Rattle.std.specs.Prelude.{◌≡◌, ◌<◌, Bool, IfSome, None};
ghost use Rattle.rfb_session.specs.doors.Arrivals.{Asking, Seating};
ghost use Rattle.rfb_session.specs.doors.Lives.{Opening, Declining};

use crate::doors::cores::Core;
use arrayvec::ArrayString;

/// A core that gives a door to each device that comes, or turns it away.
pub trait Host: Core {
    // What it may become when it gives a door to a device.
    ghost opens: { Opening Self };

    // What it may become when it gives none.
    ghost declines: { Declining Self };

    // Whether it would have a newcomer.
    ghost welcoming: { Self → Bool };

    // Whether it would have somebody called.
    ghost calling: { Self → Bool };

    // Whether all has ended.
    ghost done: { Self → Bool };

    /// Whether it would have a newcomer now. Nobody is asked for before it would.
    fn welcomes(&self) -> bool
        ensures { result ≡ welcoming self.now };

    /// Whether it would have somebody called now. Then the next device that comes is the one that
    /// was called.
    fn calls(&self) -> bool
        ensures { result ≡ calling self.now };

    /// A device came from there, and there are so many doors. Returns which one it gets, or none.
    /// What is there is dropped, so nothing that waited for that may wait for the newcomer.
    fn opened(&mut self, doors: usize, from: &str) -> Option<usize>
        ensures some { IfSome result (λ door.
            (door < doors) × opens self.old door from.now self.new) }
        ensures none { result ≡ None → declines self.old from.now self.new };

    /// Whether all has ended. What waits at a door then is not written any more.
    fn is_done(&self) -> bool
        ensures { result ≡ done self.now };
}

/// A device that came, and where it came from, for people to read.
#[derive(Debug, Drop)]
pub struct Arrival<D> {
    pub device: D,
    pub from: ArrayString<64>,
}

/// The devices that come.
pub trait Arrivals<D> {
    // What is known of a device that just came.
    ghost fresh: { D → Type 0 };

    // What the arrivals may become when the next device is asked for.
    ghost asked: { Asking Self D };

    // What they may become when somebody is called.
    ghost called: { Asking Self D };

    // What they may become when they are told a newcomer's door.
    ghost placed: { Seating Self };

    /// The next device, if one is there. It is asked once a turn, so a clock does not sleep while
    /// another may be there.
    fn next(&mut self) -> Option<Arrival<D>>
        ensures fresh { IfSome result (λ arrival. fresh arrival.device) }
        ensures asked { asked self.old result self.new };

    /// Calls whom the core would have called. It does not wait for an answer: a device that gets
    /// none fails later. There is none where nobody can be called.
    fn call(&mut self) -> Option<Arrival<D>>
        ensures fresh { IfSome result (λ arrival. fresh arrival.device) }
        ensures called { called self.old result self.new };

    /// The device that came last is at this door now; or it got none, and was dropped.
    fn seated(&mut self, door: Option<usize>)
        ensures { placed self.old door self.new };
}
