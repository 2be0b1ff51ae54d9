//! A server that is run over memory.

ghost use Rattle.std.specs.Prelude.{◌<◌, ◌-◌, ◌^◌};

use super::devices::{FailingReader, FailingWriter, FullWriter, Reader, Recolouring, Writer};
use super::streams::{CLIENT, GREEN_UPDATE, HANDSHAKE, NEXT_REQUEST, RED_UPDATE, UPDATE};
use super::{joined, server_of_two_places};
use crate::engine::{EngineFault, Sink, Source, Tally, serve};
use rfb_server::ServerFault;
use std::alloc::{AllocError, Global};

// What is answered where a client is served through this reader and this writer.
fn serving<R: Source, W: Sink>(
    alloc: Global,
    source: &mut R,
    sink: &mut W,
) -> Result<Result<u64, EngineFault>, AllocError>
    requires readable { R.failed source.old < 2 ^ 64 - 1 }
    requires writable { W.failed sink.old < 2 ^ 64 - 1 }
{
    let mut server = server_of_two_places(alloc)?;
    let mut scene = Recolouring { drawings: 0 };
    let answer = serve(alloc, source, sink, &mut server, &mut scene);
    drop(server);
    Ok(answer)
}

// Whether that is answered to a client, and this written, by reads and writes of at most `most`
// bytes.
fn is_served(
    alloc: Global,
    client: &[u8],
    (read, write): (usize, usize),
    answer: Result<u64, EngineFault>,
    written: &[u8],
) -> Result<bool, AllocError> {
    let mut source = Tally::new(Reader {
        bytes: client,
        most: read,
    });
    let mut sink = Tally::new(Writer {
        bytes: Vec::new(alloc),
        most: write,
    });
    let answered = serving(alloc, &mut source, &mut sink)?;
    let bytes = sink.into_inner().bytes;
    Ok(answered == answer && bytes.as_slice() == written)
}

#[test]
fn a_client_is_greeted_and_has_its_update(rt: HostRuntime) -> Result<(), AllocError> {
    let sent = joined(rt.alloc(), &[HANDSHAKE, UPDATE])?;
    for most in [1, 2, 3, 5, 7, 11, 13, 23, 4096] {
        let served = is_served(rt.alloc(), CLIENT, (most, 4096), Ok(1), &sent)?;
        assert!(rt; served, "reads of {most}");
    }
    Ok(())
}

#[test]
fn a_short_write_is_gone_on_with(rt: HostRuntime) -> Result<(), AllocError> {
    let sent = joined(rt.alloc(), &[HANDSHAKE, UPDATE])?;
    for most in [1, 2, 3, 5, 7, 11, 13, 23] {
        let served = is_served(rt.alloc(), CLIENT, (4096, most), Ok(1), &sent)?;
        assert!(rt; served, "writes of {most}");
    }
    Ok(())
}

// Whether serving of one client stops at the write after `calls` others, which fails: exactly the
// bytes of these are written.
fn stops_at_a_failure(alloc: Global, sent: &[u8], calls: usize) -> Result<bool, AllocError> {
    let mut source = Tally::new(CLIENT);
    let mut sink = FailingWriter {
        written: Vec::new(alloc),
        calls,
        failures: 0,
    };
    let answer = serving(alloc, &mut source, &mut sink)?;
    let front = &sent[..calls.min(sent.len())];
    Ok(
        answer == Err(EngineFault::Device)
            && sink.written.as_slice() == front
            && (source.failures(), sink.failures) == (0, 1),
    )
}

// The same where a write takes none of its bytes.
fn stops_where_none_is_taken(alloc: Global, sent: &[u8], calls: usize) -> Result<bool, AllocError> {
    let mut source = Tally::new(CLIENT);
    let mut sink = FullWriter {
        written: Vec::new(alloc),
        calls,
        failures: 0,
    };
    let answer = serving(alloc, &mut source, &mut sink)?;
    let front = &sent[..calls.min(sent.len())];
    Ok(
        answer == Err(EngineFault::Device)
            && sink.written.as_slice() == front
            && (source.failures(), sink.failures) == (0, 1),
    )
}

#[test]
fn a_failing_write_leaves_a_beginning_written(rt: HostRuntime) -> Result<(), AllocError> {
    let sent = joined(rt.alloc(), &[HANDSHAKE, UPDATE])?;
    for calls in 0..69_usize {
        let stops = stops_at_a_failure(rt.alloc(), &sent, calls)?;
        assert!(rt; stops, "after {calls} writes");
    }
    Ok(())
}

#[test]
fn a_write_that_takes_none_leaves_a_beginning_written(rt: HostRuntime) -> Result<(), AllocError> {
    let sent = joined(rt.alloc(), &[HANDSHAKE, UPDATE])?;
    for calls in 0..69_usize {
        let stops = stops_where_none_is_taken(rt.alloc(), &sent, calls)?;
        assert!(rt; stops, "after {calls} writes");
    }
    Ok(())
}

// How many bytes are written before the read after `calls` reads of one byte.
fn length_before_read(calls: usize) -> usize {
    match calls {
        0..=11 => 12,
        12 => 14,
        13 => 18,
        14..=23 => 45,
        _ => 69,
    }
}

// Whether that much is written where the read after `calls` reads of one byte fails.
fn has_answered(alloc: Global, sent: &[u8], calls: usize) -> Result<bool, AllocError> {
    let mut source = FailingReader {
        unread: CLIENT,
        calls,
        failures: 0,
    };
    let mut sink = Tally::new(Vec::new(alloc));
    let answer = serving(alloc, &mut source, &mut sink)?;
    let failures = (source.failures, sink.failures());
    let front = &sent[..length_before_read(calls).min(sent.len())];
    let written = sink.into_inner();
    Ok(answer == Err(EngineFault::Device) && written.as_slice() == front && failures == (1, 0))
}

#[test]
fn answers_are_written_before_the_next_read(rt: HostRuntime) -> Result<(), AllocError> {
    let sent = joined(rt.alloc(), &[HANDSHAKE, UPDATE])?;
    for calls in 0..25_usize {
        let answered = has_answered(rt.alloc(), &sent, calls)?;
        assert!(rt; answered, "after {calls} reads");
    }
    Ok(())
}

// What is answered to a client that ends after `count` bytes.
fn answer_to_front(count: usize) -> Result<u64, EngineFault> {
    match count {
        14 => Ok(0),
        24 => Ok(1),
        _ => Err(EngineFault::Truncated),
    }
}

fn ends_right(alloc: Global, count: usize) -> Result<bool, AllocError> {
    let mut source = Tally::new(&CLIENT[..count.min(CLIENT.len())]);
    let mut sink = Tally::new(Vec::new(alloc));
    let answer = serving(alloc, &mut source, &mut sink)?;
    Ok(answer == answer_to_front(count))
}

#[test]
fn a_client_may_end_between_two_messages_alone(rt: HostRuntime) -> Result<(), AllocError> {
    for count in 0..25_usize {
        let right = ends_right(rt.alloc(), count)?;
        assert!(rt; right, "front of {count}");
    }
    Ok(())
}

#[test]
fn the_scene_draws_once_after_each_update(rt: HostRuntime) -> Result<(), AllocError> {
    let client = joined(rt.alloc(), &[CLIENT, NEXT_REQUEST, NEXT_REQUEST])?;
    let sent = joined(rt.alloc(), &[HANDSHAKE, UPDATE, RED_UPDATE, GREEN_UPDATE])?;
    let served = is_served(rt.alloc(), &client, (12, 4096), Ok(3), &sent)?;
    assert!(rt; served);
    Ok(())
}

#[test]
fn two_requests_of_one_read_have_one_update(rt: HostRuntime) -> Result<(), AllocError> {
    let client = joined(rt.alloc(), &[CLIENT, NEXT_REQUEST])?;
    let sent = joined(rt.alloc(), &[HANDSHAKE, UPDATE])?;
    let served = is_served(rt.alloc(), &client, (34, 4096), Ok(1), &sent)?;
    assert!(rt; served);
    Ok(())
}

#[test]
fn a_read_that_ends_in_a_fault_has_no_update(rt: HostRuntime) -> Result<(), AllocError> {
    // No client's message has the type 1.
    let client = joined(rt.alloc(), &[CLIENT, b"\x01"])?;
    let fault = EngineFault::Server(ServerFault::UnknownMessage(1));
    let served = is_served(rt.alloc(), &client, (4096, 4096), Err(fault), HANDSHAKE)?;
    assert!(rt; served);
    Ok(())
}
