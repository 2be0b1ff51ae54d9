//! A viewer that is run over memory.

ghost use Rattle.std.specs.Prelude.{◌<◌, ◌-◌, ◌^◌};

use super::devices::{FailingReader, FailingWriter, FullWriter, Reader};
use super::playing::answer_to;
use super::streams::{HANDSHAKE, NEXT_REQUEST, RED_UPDATE, UPDATE, VIEWER};
use super::{joined, viewer_in};
use crate::engine::{EngineFault, Sink, Source, Tally, view, view_recording};
use rfb_pixel::Format;
use rfb_viewer::ViewerFault;
use std::alloc::{AllocError, Global};

// What is answered where a number of updates is viewed in rgb888, through this reader and this
// writer.
fn viewing<R: Source, W: Sink>(
    alloc: Global,
    source: &mut R,
    sink: &mut W,
    updates: u32,
) -> Result<u32, EngineFault>
    requires readable { R.failed source.old < 2 ^ 64 - 1 }
    requires writable { W.failed sink.old < 2 ^ 64 - 1 }
{
    let mut viewer = viewer_in(alloc, Format::rgb888());
    let answer = view(source, sink, &mut viewer, updates.max(1));
    drop(viewer);
    answer
}

// Whether `updates` updates are viewed, and this is written, by reads of at most `most` bytes.
fn is_viewed(alloc: Global, bytes: &[u8], most: usize, updates: u32, written: &[u8]) -> bool {
    let mut sink = Tally::new(Vec::new(alloc));
    let answer = viewing(
        alloc,
        &mut Tally::new(Reader { bytes, most }),
        &mut sink,
        updates,
    );
    answer == Ok(updates) && sink.into_inner().as_slice() == written
}

#[test]
fn a_server_is_answered_and_asked_once_whatever_reads_give(
    rt: HostRuntime,
) -> Result<(), AllocError> {
    let bytes = joined(rt.alloc(), &[HANDSHAKE, UPDATE])?;
    for most in [1, 2, 3, 5, 7, 11, 13, 23, 4096] {
        let viewed = is_viewed(rt.alloc(), &bytes, most, 1, VIEWER);
        assert!(rt; viewed, "reads of {most}");
    }
    Ok(())
}

#[test]
fn after_an_update_it_asks_for_what_has_changed(rt: HostRuntime) -> Result<(), AllocError> {
    let bytes = joined(rt.alloc(), &[HANDSHAKE, UPDATE, RED_UPDATE, b"\x02\xFF"])?;
    let sent = joined(rt.alloc(), &[VIEWER, NEXT_REQUEST])?;
    for most in [1, 24, 4096] {
        let viewed = is_viewed(rt.alloc(), &bytes, most, 2, &sent);
        assert!(rt; viewed, "reads of {most}");
    }
    Ok(())
}

// Whether viewing stops at the write after `calls` others, which fails: exactly the bytes of these
// are written.
fn stops_at_a_failure(alloc: Global, bytes: &[u8], calls: usize) -> bool {
    let mut source = Tally::new(bytes);
    let mut sink = FailingWriter {
        written: Vec::new(alloc),
        calls,
        failures: 0,
    };
    let answer = viewing(alloc, &mut source, &mut sink, 1);
    answer == Err(EngineFault::Device)
        && sink.written.as_slice() == &VIEWER[..calls.min(VIEWER.len())]
        && (source.failures(), sink.failures) == (0, 1)
}

// The same where a write takes none of its bytes.
fn stops_where_none_is_taken(alloc: Global, bytes: &[u8], calls: usize) -> bool {
    let mut source = Tally::new(bytes);
    let mut sink = FullWriter {
        written: Vec::new(alloc),
        calls,
        failures: 0,
    };
    let answer = viewing(alloc, &mut source, &mut sink, 1);
    answer == Err(EngineFault::Device)
        && sink.written.as_slice() == &VIEWER[..calls.min(VIEWER.len())]
        && (source.failures(), sink.failures) == (0, 1)
}

#[test]
fn a_failing_write_leaves_a_beginning_of_what_is_sent(rt: HostRuntime) -> Result<(), AllocError> {
    let bytes = joined(rt.alloc(), &[HANDSHAKE, UPDATE])?;
    for calls in 0..52_usize {
        let fails = stops_at_a_failure(rt.alloc(), &bytes, calls);
        let takes_none = stops_where_none_is_taken(rt.alloc(), &bytes, calls);
        assert_eq!(rt; (fails, takes_none), (true, true), "after {calls} writes");
    }
    Ok(())
}

// How many bytes are written once `count` were read.
fn length_after(count: usize) -> usize {
    match count {
        0..=11 => 0,
        12..=13 => 12,
        14..=17 => 13,
        18..=44 => 14,
        _ => 52,
    }
}

// What of the viewer's bytes is written once `count` were read.
fn front_after(count: usize) -> &'static [u8] {
    &VIEWER[..length_after(count).min(VIEWER.len())]
}

// Whether viewing stops so where the reader fails after `count` bytes.
fn fails_after(alloc: Global, bytes: &[u8], count: usize) -> bool {
    let mut source = FailingReader {
        unread: bytes,
        calls: count,
        failures: 0,
    };
    let mut sink = Tally::new(Vec::new(alloc));
    let answer = viewing(alloc, &mut source, &mut sink, 1);
    answer == Err(EngineFault::Device)
        && (source.failures, sink.failures()) == (1, 0)
        && sink.into_inner().as_slice() == front_after(count)
}

// Whether it stops so where the bytes end there.
fn ends_after(alloc: Global, bytes: &[u8], count: usize) -> bool {
    let mut sink = Tally::new(Vec::new(alloc));
    let mut source = Tally::new(&bytes[..count.min(bytes.len())]);
    let answer = viewing(alloc, &mut source, &mut sink, 1);
    answer == Err(EngineFault::Truncated) && sink.into_inner().as_slice() == front_after(count)
}

#[test]
fn bytes_that_fail_or_end_early_are_answered_so_far(rt: HostRuntime) -> Result<(), AllocError> {
    let bytes = joined(rt.alloc(), &[HANDSHAKE, UPDATE])?;
    for count in 0..69_usize {
        let fails = fails_after(rt.alloc(), &bytes, count);
        let ends = ends_after(rt.alloc(), &bytes, count);
        assert_eq!(rt; (fails, ends), (true, true), "after {count} bytes");
    }
    Ok(())
}

// What is kept of a server's bytes.
fn kept_of(alloc: Global, bytes: &[u8], most: usize) -> Vec<u8> {
    let mut viewer = viewer_in(alloc, Format::rgb888());
    let mut kept = Tally::new(Vec::new(alloc));
    let mut sink = Tally::new(Vec::new(alloc));
    let mut source = Tally::new(Reader { bytes, most });
    let _ = view_recording(&mut source, &mut sink, &mut kept, &mut viewer, 1);
    drop(viewer);
    drop(sink);
    kept.into_inner()
}

// Whether this is kept of a server's bytes.
fn is_kept(alloc: Global, bytes: &[u8], most: usize, whole: &[u8]) -> bool {
    kept_of(alloc, bytes, most).as_slice() == whole
}

#[test]
fn a_recording_ends_with_the_last_update(rt: HostRuntime) -> Result<(), AllocError> {
    let whole = joined(rt.alloc(), &[HANDSHAKE, UPDATE])?;
    let bytes = joined(rt.alloc(), &[HANDSHAKE, UPDATE, RED_UPDATE])?;
    for most in [1, 50, 4096] {
        assert!(rt;
            is_kept(rt.alloc(), &bytes, most, &whole),
            "reads of {most}"
        );
    }
    Ok(())
}

// What a recording of a server's bytes is answered, where it is played.
fn answer_to_kept(alloc: Global, bytes: &[u8], most: usize) -> Result<u64, EngineFault> {
    let kept = kept_of(alloc, bytes, most);
    answer_to(alloc, &kept, 4096)
}

#[test]
fn a_recording_of_a_faulty_server_ends_with_its_fault(rt: HostRuntime) -> Result<(), AllocError> {
    // No server's message has the type 255.
    let bytes = joined(rt.alloc(), &[HANDSHAKE, b"\xFF\x02"])?;
    let fault = EngineFault::Viewer(ViewerFault::UnknownMessage(255));
    for most in [1, 46, 4096] {
        let answer = answer_to_kept(rt.alloc(), &bytes, most);
        assert_eq!(rt; answer, Err(fault), "reads of {most}");
    }
    Ok(())
}
