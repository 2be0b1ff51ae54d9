//! Bytes between doors that stay.

use super::devices::{Broken, Pipe, Ticks};
use crate::doors::echo::{Echo, serve};
use crate::doors::waiting::how_long;
use crate::doors::{Answer, Core, Counted, Device, Pause, hear, tell};
use std::alloc::{AllocError, Global};
use std::io::ErrorKind;

// All bytes that there are, and then again: more than wait at a door.
fn many(alloc: Global) -> Result<Vec<u8>, AllocError> {
    let mut bytes = Vec::new(alloc);
    for _ in 0..2 {
        for byte in 0..=255 {
            bytes.push(byte)?;
        }
    }
    Ok(bytes)
}

// A door with these bytes to read, at most so many a call.
fn door_of(alloc: Global, unread: &[u8], most: usize) -> Counted<Pipe<'_>> {
    Counted::new(Pipe {
        unread,
        written: Vec::new(alloc),
        most,
    })
}

#[test]
fn an_echo_carries_all_bytes_both_ways(rt: HostRuntime) -> Result<(), AllocError> {
    let bytes = many(rt.alloc())?;
    let mut doors = Vec::new(rt.alloc());
    doors.push(door_of(rt.alloc(), &bytes, 7))?;
    doors.push(door_of(rt.alloc(), b"a few", 3))?;
    let mut clock = Ticks::ready(10_000);
    let mut part = [0; 64];
    serve(&mut doors, &mut clock, &mut part);
    let second = doors.pop().map(|door| door.into_inner());
    let first = doors.pop().map(|door| door.into_inner());
    let (Some(first), Some(second)) = (first, second) else {
        assert!(rt; false, "two doors");
        return Ok(());
    };
    assert!(rt; first.written.as_slice() == b"a few".as_slice());
    assert!(rt; second.written.as_slice() == bytes.as_slice());
    assert!(rt; clock.turns > 0, "it ends by itself");
    assert!(rt; clock.slept == 0);
    Ok(())
}

#[test]
fn nothing_is_read_where_there_is_no_room(rt: HostRuntime) -> Result<(), AllocError> {
    let bytes = many(rt.alloc())?;
    let mut echo = Echo::new();
    let mut door = door_of(rt.alloc(), &bytes, 100);
    let mut part = [0; 100];
    assert!(rt; hear(&mut echo, &mut door, 0, &mut part) == Answer::Moved(64));
    assert!(rt; hear(&mut echo, &mut door, 0, &mut part) == Answer::Again);
    assert!(rt; hear(&mut echo, &mut door, 5, &mut part) == Answer::Again);
    assert!(rt; tell(&mut echo, &mut door, 1) == Answer::Moved(64));
    assert!(rt; tell(&mut echo, &mut door, 1) == Answer::Again);
    assert!(rt; hear(&mut echo, &mut door, 0, &mut part) == Answer::Moved(64));
    Ok(())
}

#[test]
fn an_end_is_told_and_a_door_that_waits_is_not(rt: HostRuntime) -> Result<(), AllocError> {
    let mut echo = Echo::new();
    let mut part = [0; 8];
    let mut waiting = door_of(rt.alloc(), b"later", 0);
    assert!(rt; hear(&mut echo, &mut waiting, 0, &mut part) == Answer::Waits);
    let mut ended = door_of(rt.alloc(), b"", 8);
    assert!(rt; hear(&mut echo, &mut ended, 0, &mut part) == Answer::Ended);
    assert!(rt; hear(&mut echo, &mut ended, 1, &mut part) == Answer::Ended);
    assert!(rt; echo.is_closed(0));
    assert!(rt;
        hear(&mut echo, &mut ended, 0, &mut part) == Answer::Again,
        "an end has no room"
    );
    Ok(())
}

#[test]
fn errors_are_answers_and_a_failure_is_the_last(rt: HostRuntime) -> Result<(), AllocError> {
    let mut buf = [0; 8];
    let kinds = [
        (ErrorKind::Interrupted, Answer::Again, Answer::Again),
        (ErrorKind::WouldBlock, Answer::Waits, Answer::Waits),
        (ErrorKind::BrokenPipe, Answer::Failed, Answer::Waits),
    ];
    for (kind, first, then) in kinds {
        let mut door = Counted::new(Broken(kind));
        assert!(rt; door.read(&mut buf) == first);
        assert!(rt; door.read(&mut buf) == then);
        let mut door = Counted::new(Broken(kind));
        assert!(rt; door.write(&buf) == first);
        assert!(rt; door.read(&mut buf) == then);
    }
    let mut full = door_of(rt.alloc(), b"", 0);
    assert!(rt; full.write(&buf) == Answer::Failed, "a write of none");
    Ok(())
}

#[test]
fn it_sleeps_where_nothing_is_ready_and_wanted(rt: HostRuntime) -> Result<(), AllocError> {
    let echo = Echo::new();
    let mut clock = Ticks::ready(1);
    assert!(rt; how_long(&echo, &clock, 2, Some(5)) == Pause::Look);
    assert!(rt; how_long(&echo, &clock, 0, Some(5)) == Pause::Until(5));
    clock.is_ready = false;
    assert!(rt; how_long(&echo, &clock, 2, Some(5)) == Pause::Until(5));
    assert!(rt; how_long(&echo, &clock, 2, None) == Pause::Ready);
    Ok(())
}
