//! Recordings whose first updates are played.

use super::devices::{FailingReader, Reader};
use super::streams::{HANDSHAKE, RED_UPDATE, UPDATE};
use super::viewer_in;
use crate::engine::{EngineFault, Source, Tally, play_some, ppm};
use rfb_pixel::Format;
use rfb_viewer::ViewerFault;
use std::alloc::{AllocError, Global};

// A handshake, and `updates` updates.
fn recording(alloc: Global, updates: u32) -> Result<Vec<u8>, AllocError> {
    let mut bytes = HANDSHAKE.to_vec(alloc)?;
    for _ in 0..updates {
        bytes.extend_from_slice(UPDATE)?;
    }
    Ok(bytes)
}

// A handshake, and then these bytes.
fn after_a_handshake(alloc: Global, bytes: &[u8], more: &[u8]) -> Result<Vec<u8>, AllocError> {
    let mut all = HANDSHAKE.to_vec(alloc)?;
    all.extend_from_slice(bytes)?;
    all.extend_from_slice(more)?;
    Ok(all)
}

// Whether that is answered where `updates` updates of a recording are played, by reads of at most
// `most` bytes that never fail.
fn is_answered(
    alloc: Global,
    bytes: &[u8],
    most: usize,
    updates: u64,
    answer: Result<u64, EngineFault>,
) -> bool {
    let mut viewer = viewer_in(alloc, Format::rgb888());
    let mut source = Tally::new(Reader { bytes, most });
    let answered = play_some(&mut source, &mut viewer, updates.max(1));
    drop(viewer);
    answered == answer && source.failures() == 0
}

// What is answered where the read after `calls` reads of one byte fails, and how many have failed.
fn answer_after(
    alloc: Global,
    bytes: &[u8],
    calls: usize,
    updates: u64,
) -> (Result<u64, EngineFault>, u64) {
    let mut viewer = viewer_in(alloc, Format::rgb888());
    let mut source = FailingReader {
        unread: bytes,
        calls,
        failures: 0,
    };
    let answer = play_some(&mut source, &mut viewer, updates.max(1));
    drop(viewer);
    (answer, source.failures)
}

#[test]
fn it_stops_once_that_many_updates_ended(rt: HostRuntime) -> Result<(), AllocError> {
    let bytes = recording(rt.alloc(), 500)?;
    for updates in [1_u64, 7, 499, 500] {
        for most in [1_usize, 13, 4096] {
            let stopped = is_answered(rt.alloc(), &bytes, most, updates, Ok(updates));
            assert!(rt; stopped, "{updates} updates by reads of {most}");
        }
    }
    Ok(())
}

#[test]
fn fewer_updates_are_all_played(rt: HostRuntime) -> Result<(), AllocError> {
    let bytes = recording(rt.alloc(), 500)?;
    for updates in [501_u64, 4_294_967_296, u64::MAX] {
        let played = is_answered(rt.alloc(), &bytes, 4096, updates, Ok(500));
        assert!(rt; played, "{updates} updates");
    }
    Ok(())
}

#[test]
fn a_fault_after_the_last_update_is_not_met(rt: HostRuntime) -> Result<(), AllocError> {
    // No server's message has the type 255.
    let bytes = after_a_handshake(rt.alloc(), UPDATE, b"\xFF")?;
    let fault = EngineFault::Viewer(ViewerFault::UnknownMessage(255));
    for most in [1_usize, 4096] {
        let stopped = is_answered(rt.alloc(), &bytes, most, 1, Ok(1));
        let refused = is_answered(rt.alloc(), &bytes, most, 2, Err(fault));
        assert_eq!(rt; (stopped, refused), (true, true), "reads of {most}");
    }
    Ok(())
}

// What is answered to the first `count` bytes of a handshake and an update.
fn answer_to_front(count: usize) -> Result<u64, EngineFault> {
    match count {
        45 => Ok(0),
        69 => Ok(1),
        _ => Err(EngineFault::Truncated),
    }
}

#[test]
fn an_early_end_is_as_that_of_play(rt: HostRuntime) -> Result<(), AllocError> {
    let bytes = recording(rt.alloc(), 1)?;
    for count in 0..70_usize {
        let front = &bytes.as_slice()[..count.min(bytes.len())];
        let right = is_answered(rt.alloc(), front, 4096, 2, answer_to_front(count));
        assert!(rt; right, "front of {count}");
    }
    Ok(())
}

#[test]
fn a_read_that_fails_is_reported_where_it_is_needed(rt: HostRuntime) -> Result<(), AllocError> {
    let bytes = recording(rt.alloc(), 2)?;
    let failed = (Err(EngineFault::Device), 1);
    assert!(rt; answer_after(rt.alloc(), &bytes, 68, 1) == failed);
    assert!(rt; answer_after(rt.alloc(), &bytes, 69, 1) == (Ok(1), 0));
    assert!(rt; answer_after(rt.alloc(), &bytes, 69, 2) == failed);
    Ok(())
}

// The pixmap of what the viewer shows after `updates` updates.
fn picture_of(alloc: Global, bytes: &[u8], updates: u64) -> Vec<u8> {
    let mut viewer = viewer_in(alloc, Format::rgb888());
    let mut sink = Tally::new(Vec::new(alloc));
    let played = play_some(&mut Tally::new(bytes), &mut viewer, updates.max(1));
    if let (Ok(_), Some(picture)) = (played, viewer.picture()) {
        let _ = ppm(picture, &mut sink);
    }
    drop(viewer);
    sink.into_inner()
}

#[test]
fn the_picture_is_that_after_the_last_update(rt: HostRuntime) -> Result<(), AllocError> {
    let bytes = after_a_handshake(rt.alloc(), UPDATE, RED_UPDATE)?;
    let first = picture_of(rt.alloc(), &bytes, 1);
    let second = picture_of(rt.alloc(), &bytes, 2);
    assert!(rt; first.as_slice() == b"P6\n2 1\n65535\n\0\0\0\0\0\0\x04\x04\0\0\x02\x02".as_slice());
    assert!(rt;
        second.as_slice() == b"P6\n2 1\n65535\n\xFF\xFF\0\0\x10\x10\xFF\xFF\0\0\x10\x10".as_slice()
    );
    Ok(())
}
