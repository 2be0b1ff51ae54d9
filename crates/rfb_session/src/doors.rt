//! A loop that moves bytes between numbered doors and a core.
//!
//! A door is a number. A `Device` is there: bytes come in at it, go out at it, or both. A `Core`
//! knows what the bytes mean, and does no IO. The loop knows only how a door is read and written.
//! It holds no bytes of its own: what it reads it brings at once, since the core's `room` is a
//! promise.
//!
//! - `hear` reads once at a door, and `tell` writes once there.
//! - `turn` does so at all doors, and `run` does turns until the clock or the core says that it is
//!   over. The contract of each is `Turns`: what the core was told, in order, and what that means
//!   for each door.
//! - `live` is a run whose doors open and close. Its contract is `Lives`, and what each device that
//!   is at a door in the end has had there since it came.
//! - `Counted` makes a `Device` of any `Duplex`, and `Place` is a door that may have one.

mod clock;
mod cores;
mod device;
mod duplex;
pub mod echo;
mod host;
mod incoming;
mod lives;
mod outgoing;
mod place;
#[cfg(test)]
mod tests;
mod turns;
mod waiting;

pub use clock::{Clock, Pause};
pub use cores::Core;
pub use device::{Answer, Device};
pub use duplex::{Counted, Duplex};
pub use host::{Arrival, Arrivals, Host};
pub use incoming::hear;
pub use lives::{close, live, open};
pub use outgoing::tell;
pub use place::Place;
pub use turns::{run, turn};
