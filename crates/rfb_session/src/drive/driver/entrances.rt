//! A driver as a core: what happens at its doors.

ghost use Rattle.std.specs.Prelude.{◌≡◌, ◌≤◌, ◌<◌, ◌+◌, length};
ghost use Rattle.rfb_session.specs.drive.driver.Steps.{DriverSteps, HearsDoor, spent};
ghost use Rattle.rfb_session.specs.drive.driver.Steps.{Adds, Leaves, closed_at, space_at, waits_at};

use crate::console::{LINES, NOTES};
use crate::doors::Core;
use crate::drive::driver::{DriveOutcome, Driver, ORDERS, Rig};
use crate::relay::{Gone, SERVER};

impl<R: Rig + Drop> Core for Driver<R> {
    ghost steps = { DriverSteps R.steps };

    ghost waiting = { waits_at };

    ghost space = { space_at };

    ghost closed = { closed_at };

    ghost due = { λ driver. driver.turns.next };

    fn room(&self, door: usize) -> usize {
        match door {
            SERVER => self.rooms.server,
            ORDERS => self.rooms.orders,
            _ => 0,
        }
    }

    fn received(&mut self, door: usize, bytes: &[u8]) -> usize {
        let used = self.hear_at(door, bytes);
        self.spend(door, used);
        used
    }

    fn ended(&mut self, door: usize) {
        if door == SERVER {
            self.lose_server(Gone::Closed);
            self.rooms.server = 0;
        } else if door == ORDERS {
            self.input.end();
            self.rooms.orders = 0;
        }
    }

    fn failed(&mut self, door: usize) {
        if door == SERVER {
            self.lose_server(Gone::Device);
            self.rooms.server = 0;
        } else if door == ORDERS {
            self.end(DriveOutcome::Device);
            self.rooms.orders = 0;
        } else if door == LINES {
            self.end(DriveOutcome::Device);
            self.lines.arrive(self.lines.len());
        } else if door == NOTES {
            self.are_notes_lost = true;
            self.notes.arrive(self.notes.len());
        }
    }

    fn to_write(&self, door: usize) -> &[u8] {
        match door {
            SERVER => self.to_server.first(self.to_server.len()),
            LINES => self.lines.first(self.lines.len()),
            NOTES => self.notes.first(self.notes.len()),
            _ => &[],
        }
    }

    fn written(&mut self, door: usize, count: usize) {
        if door == SERVER {
            self.leave(count);
        } else if door == LINES {
            self.lines.arrive(count);
        } else if door == NOTES {
            self.notes.arrive(count);
        }
    }

    fn is_closed(&self, door: usize) -> bool {
        match door {
            // It may still read what was sent last, once all is done.
            SERVER => false,
            ORDERS => self.outcome.is_some() || self.input.has_ended,
            LINES => self.outcome == Some(DriveOutcome::Device),
            NOTES => self.are_notes_lost,
            _ => true,
        }
    }

    fn turned(&mut self, now: u64) -> Option<u64> {
        self.go_on(now);
        self.end_turn(now);
        self.turns.next
    }
}

impl<R: Rig + Drop> Driver<R> {
    // Bytes of the rig's are kept until they are lines. After the end they are not.
    fn add(&mut self, bytes: &[u8])
        ensures { Adds bytes.now self.old self.new }
    {
        if self.outcome.is_some() {
            return;
        }
        if self.input.add(bytes).is_err() {
            self.end(DriveOutcome::NoMemory);
        }
    }

    // Takes bytes that came at a door.
    fn hear_at(&mut self, door: usize, bytes: &[u8]) -> usize
        requires some { 0 < length bytes.now }
        ensures used { (0 < result) × (result ≤ length bytes.now) }
        ensures hears { HearsDoor self.old door bytes.now result self.new }
    {
        if door == SERVER {
            return self.hear_server(bytes);
        }
        if door == ORDERS {
            self.add(bytes);
        }
        bytes.len()
    }

    // So many bytes of a door were taken.
    fn spend(&mut self, door: usize, used: usize)
        ensures { self.new ≡ spent door used self.old }
    {
        if door == SERVER {
            self.rooms.server = self.rooms.server.saturating_sub(used);
        } else if door == ORDERS {
            self.rooms.orders = self.rooms.orders.saturating_sub(used);
        }
    }

    // The first `count` bytes that waited for the server have left. With the last of its messages
    // the line that is under way is done.
    fn leave(&mut self, count: usize)
        requires { count ≤ length self.old.to_server }
        ensures { Leaves count self.old self.new }
    {
        self.to_server.arrive(count);
        let is_done = self.pace.task.hear_left(count);
        self.finish_if(is_done);
    }
}
