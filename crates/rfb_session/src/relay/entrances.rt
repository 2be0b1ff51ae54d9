//! A relay as a core: what happens at its doors.

ghost use Rattle.std.specs.Prelude.{◌≡◌, ◌≤◌, ◌<◌, ◌+◌, ℕ, length};
ghost use Rattle.rfb_session.specs.relay.Doors.{Arrives, KeepsAllButRooms, SparesOne, SparesUpTo};
ghost use Rattle.rfb_session.specs.relay.Doors.{closed_at_door, room_of_server, space_at_door};
ghost use Rattle.rfb_session.specs.relay.Doors.{waits_at_door};
ghost use Rattle.rfb_session.specs.relay.Relay.{HearsAtDoor, RelaySteps};
ghost use Rattle.rfb_session.specs.console.Console.{KeepsSide};

use crate::console::Speaker;
use crate::console::entrances::seat_at;
use crate::doors::Core;
use crate::relay::{Gone, Relay, SERVER};
use crate::slots::SLOTS;

// How many bytes of the server's are taken in one turn.
const ROOM_OF_SERVER: usize = 1 << 16;

// Where so many bytes of what a viewer did wait for the server, it is not read.
const PASSED_MOST: usize = 4096;

impl<S: Speaker + Drop> Core for Relay<S> {
    ghost steps = { RelaySteps };

    ghost waiting = { waits_at_door };

    ghost space = { space_at_door };

    ghost closed = { closed_at_door };

    ghost due = { λ relay. relay.console.next };

    fn room(&self, door: usize) -> usize {
        self.console.room(door)
    }

    fn received(&mut self, door: usize, bytes: &[u8]) -> usize {
        let used = self.hear_at(door, bytes);
        self.console.spend(door, used);
        used
    }

    fn ended(&mut self, door: usize) {
        if door == SERVER {
            self.lose_server(Gone::Closed);
            self.console.close_room(door);
        } else {
            self.console.ended(door);
        }
    }

    fn failed(&mut self, door: usize) {
        if door == SERVER {
            self.lose_server(Gone::Device);
            self.console.close_room(door);
        } else {
            self.console.failed(door);
        }
    }

    fn to_write(&self, door: usize) -> &[u8] {
        if door == SERVER {
            self.to_server.first(self.to_server.len())
        } else {
            self.console.to_write(door)
        }
    }

    fn written(&mut self, door: usize, count: usize) {
        if door == SERVER {
            self.arrive(count);
        } else {
            self.console.written(door, count);
        }
    }

    fn is_closed(&self, door: usize) -> bool {
        if door == SERVER {
            self.presence.is_gone()
        } else {
            self.console.is_closed(door)
        }
    }

    fn turned(&mut self, now: u64) -> Option<u64> {
        // A viewer that asked for the whole screen waits no more after the desk's turn. One that
        // got an update asks for the next. So the server is asked before the turn, too.
        self.ask();
        self.console.turn_desk(now);
        self.ask();
        self.console.end_turn(now);
        self.open_server();
        self.spare_seats();
        self.plan_call(now);
        self.console.next
    }
}

impl<S: Speaker + Drop> Relay<S> {
    // Takes bytes that came at a door.
    fn hear_at(&mut self, door: usize, bytes: &[u8]) -> usize
        requires some { 0 < length bytes.now }
        ensures used { (0 < result) × (result ≤ length bytes.now) }
        ensures hears { HearsAtDoor self.old door bytes.now result self.new }
        ensures side { KeepsSide self.old.console self.new.console }
        ensures given { self.new.given ≡ self.old.given }
    {
        if door == SERVER {
            return self.hear_server(bytes);
        }
        match seat_at(door) {
            Some(seat) => self.hear_viewer(seat, bytes),
            None => bytes.len(),
        }
    }

    // How much of the server is read before the next turn: nothing once it has gone.
    pub(crate) fn open_server(&mut self)
        ensures keeps { KeepsAllButRooms self.old self.new }
        ensures room { space_at_door self.new 0 ≡ room_of_server self.old }
        ensures others { (k : ℕ) →
            space_at_door self.new (k + 1) ≡ space_at_door self.old (k + 1) }
        ensures given { self.new.given ≡ self.old.given }
    {
        let is_open = !self.presence.is_gone() && self.console.outcome.is_none();
        let room = if is_open { ROOM_OF_SERVER } else { 0 };
        self.console.open_room(SERVER, room);
    }

    // Where much of what a viewer did waits for the server, it is not read.
    fn spare_seats(&mut self)
        ensures spares { SparesUpTo 8 self.old self.new }
        ensures given { self.new.given ≡ self.old.given }
    {
        for place in 0..SLOTS {
            self.spare_seat(place);
        }
    }

    fn spare_seat(&mut self, place: usize)
        requires { place < 8 }
        ensures spares { SparesOne self.old place self.new }
        ensures given { self.new.given ≡ self.old.given }
    {
        if self.passed[place] >= PASSED_MOST {
            self.console.close_room(place + 1);
        }
    }

    // The first `count` bytes that waited for the server have left. After the last nothing is
    // counted any more.
    fn arrive(&mut self, count: usize)
        requires { count ≤ length self.old.to_server }
        ensures arrives { Arrives self.old count self.new }
        ensures given { self.new.given ≡ self.old.given }
    {
        self.to_server.arrive(count);
        if self.to_server.len() == 0 {
            self.passed = [0; SLOTS];
        }
    }
}
