//! Doors that open and close.

ghost use Rattle.std.specs.Prelude.{◌≡◌, ⊤, None, false, nat_eq, nat_lt};
ghost use Rattle.rfb_session.specs.doors.Echo.{Echoes, waiting_at, space_at, closed_at};

use super::devices::{Pipe, Ticks};
use crate::doors::echo::Echo;
use crate::doors::{Answer, Arrival, Arrivals, Clock, Core, Counted, Host, Pause, Place, live};
use arrayvec::ArrayString;
use std::alloc::AllocError;

// An echo that gives its doors in turn to those who come.
#[derive(Drop)]
struct House {
    echo: Echo,
    given: usize,
}

impl Core for House {
    ghost steps = { λ old event new. Echoes old.echo event new.echo };

    ghost waiting = { λ h d. waiting_at h.echo d };

    ghost space = { λ h d. space_at h.echo d };

    ghost closed = { λ h d. closed_at h.echo d };

    ghost due = { λ h. None };

    fn room(&self, door: usize) -> usize {
        self.echo.room(door)
    }

    fn received(&mut self, door: usize, bytes: &[u8]) -> usize {
        self.echo.received(door, bytes)
    }

    fn ended(&mut self, door: usize) {
        self.echo.ended(door);
    }

    fn failed(&mut self, door: usize) {
        self.echo.failed(door);
    }

    fn to_write(&self, door: usize) -> &[u8] {
        self.echo.to_write(door)
    }

    fn written(&mut self, door: usize, count: usize) {
        self.echo.written(door, count);
    }

    fn is_closed(&self, door: usize) -> bool {
        self.echo.is_closed(door)
    }

    fn turned(&mut self, now: u64) -> Option<u64> {
        self.echo.turned(now)
    }
}

impl Host for House {
    ghost opens = { λ old door from new. new.echo ≡ old.echo };

    ghost declines = { λ old from new. new.echo ≡ old.echo };

    ghost welcoming = { λ house. nat_lt house.given 3 };

    ghost calling = { λ house. nat_eq house.given 1 };

    ghost done = { λ house. false };

    fn welcomes(&self) -> bool {
        self.given < 3
    }

    fn calls(&self) -> bool {
        self.given == 1
    }

    fn opened(&mut self, doors: usize, _from: &str) -> Option<usize> {
        if self.given < doors {
            let door = self.given;
            self.given += 1;
            Some(door)
        } else {
            None
        }
    }

    fn is_done(&self) -> bool {
        false
    }
}

// One who comes, one who is called, and another who comes, for whom there is no door.
#[derive(Drop)]
struct Street<'a> {
    ticks: Ticks,
    first: Option<Counted<Pipe<'a>>>,
    called: Option<Counted<Pipe<'a>>>,
    last: Option<Counted<Pipe<'a>>>,
    seated: usize,
    refused: usize,
}

impl<'a> Street<'a> {
    fn first_of_all(&mut self) -> Option<Counted<Pipe<'a>>> {
        if self.first.is_some() {
            return self.first.take();
        }
        self.last.take()
    }
}

// The device came, from nowhere that has a name.
fn arrival<D>(device: D) -> Arrival<D> {
    Arrival {
        device,
        from: ArrayString::new(),
    }
}

impl<'a> Arrivals<Counted<Pipe<'a>>> for Street<'a> {
    ghost fresh = { λ d. ⊤ };

    ghost asked = { λ old came new. ⊤ };

    ghost called = { λ old came new. ⊤ };

    ghost placed = { λ old door new. ⊤ };

    fn next(&mut self) -> Option<Arrival<Counted<Pipe<'a>>>> {
        Some(arrival(self.first_of_all()?))
    }

    fn call(&mut self) -> Option<Arrival<Counted<Pipe<'a>>>> {
        Some(arrival(self.called.take()?))
    }

    fn seated(&mut self, door: Option<usize>) {
        match door {
            Some(_) => self.seated = self.seated.saturating_add(1),
            None => self.refused = self.refused.saturating_add(1),
        }
    }
}

impl Clock for Street<'_> {
    ghost readable = { λ s d. s.ticks.is_ready };

    ghost writable = { λ s d. s.ticks.is_ready };

    fn now(&self) -> u64 {
        self.ticks.now()
    }

    fn wait(&mut self, pause: Pause) -> bool {
        self.ticks.wait(pause)
    }

    fn reads(&self, door: usize) -> bool {
        self.ticks.reads(door)
    }

    fn writes(&self, door: usize) -> bool {
        self.ticks.writes(door)
    }

    fn heard(&mut self, door: usize, answer: Answer, most: usize) {
        self.ticks.heard(door, answer, most);
    }

    fn told(&mut self, door: usize, answer: Answer) {
        self.ticks.told(door, answer);
    }
}

#[test]
fn doors_open_to_who_comes_and_who_is_called_and_close_when_all_is_written(
    rt: HostRuntime,
) -> Result<(), AllocError> {
    let comer = |unread| {
        Some(Counted::new(Pipe {
            unread,
            written: Vec::new(rt.alloc()),
            most: 2,
        }))
    };
    let mut street = Street {
        ticks: Ticks::ready(20),
        first: comer(b"hello".as_slice()),
        called: comer(b"you".as_slice()),
        last: comer(b"late".as_slice()),
        seated: 0,
        refused: 0,
    };
    let mut house = House {
        echo: Echo::new(),
        given: 0,
    };
    let mut doors = [Place::Empty, Place::Empty];
    let mut part = [0; 64];
    live(&mut house, &mut doors, &mut street, &mut part);
    assert!(rt; street.seated == 2);
    assert!(rt; street.refused == 1);
    assert!(rt; street.ticks.left == 8, "all bytes of both");
    assert!(rt; matches!(doors[0], Place::Empty));
    assert!(rt; matches!(doors[1], Place::Empty));
    Ok(())
}
