//! Recordings that are played.

use super::devices::{FailingReader, Reader};
use super::streams::{CUT_TEXT, HANDSHAKE, UPDATE};
use super::viewer_in;
use crate::engine::{EngineFault, Tally, play, ppm};
use rfb_pixel::Format;
use std::alloc::{AllocError, Global};

// The first `count` bytes of a recording: a handshake, and then these bytes.
fn recording(alloc: Global, after: &[u8], count: usize) -> Result<Vec<u8>, AllocError> {
    let mut bytes = HANDSHAKE.to_vec(alloc)?;
    bytes.extend_from_slice(after)?;
    bytes.truncate(count);
    Ok(bytes)
}

// What is answered to a recording in rgb888, by reads of at most `most` bytes.
pub(super) fn answer_to(alloc: Global, bytes: &[u8], most: usize) -> Result<u64, EngineFault> {
    let mut viewer = viewer_in(alloc, Format::rgb888());
    let mut source = Tally::new(Reader { bytes, most });
    let answer = play(&mut source, &mut viewer);
    drop(viewer);
    answer
}

// The pixmap of what the viewer shows after a recording.
fn picture_of(alloc: Global, bytes: &[u8], most: usize) -> Vec<u8> {
    let mut viewer = viewer_in(alloc, Format::rgb888());
    let mut source = Tally::new(Reader { bytes, most });
    let mut sink = Tally::new(Vec::new(alloc));
    let played = play(&mut source, &mut viewer);
    if let (Ok(_), Some(picture)) = (played, viewer.picture()) {
        let _ = ppm(picture, &mut sink);
    }
    drop(viewer);
    sink.into_inner()
}

// Whether the viewer shows black and (1028, 0, 514) after a recording.
fn shows_both(alloc: Global, bytes: &[u8], most: usize) -> bool {
    let picture = picture_of(alloc, bytes, most);
    picture.as_slice() == b"P6\n2 1\n65535\n\0\0\0\0\0\0\x04\x04\0\0\x02\x02".as_slice()
}

#[test]
fn a_recording_shows_its_picture_whatever_reads_give(rt: HostRuntime) -> Result<(), AllocError> {
    let bytes = recording(rt.alloc(), UPDATE, 69)?;
    for most in [1, 2, 3, 5, 7, 11, 23, 67, 4096] {
        assert!(rt; shows_both(rt.alloc(), &bytes, most), "reads of {most}");
    }
    Ok(())
}

// What is answered to the first `count` bytes of a handshake and an update.
fn answer_to_front(count: usize) -> Result<u64, EngineFault> {
    match count {
        45 => Ok(0),
        69 => Ok(1),
        _ => Err(EngineFault::Truncated),
    }
}

// Whether that is answered, by long reads and by reads of one byte.
fn ends_right(alloc: Global, count: usize) -> Result<bool, AllocError> {
    let bytes = recording(alloc, UPDATE, count)?;
    let answer = answer_to_front(count);
    Ok(answer_to(alloc, &bytes, 4096) == answer && answer_to(alloc, &bytes, 1) == answer)
}

#[test]
fn a_recording_may_end_between_two_messages_alone(rt: HostRuntime) -> Result<(), AllocError> {
    for count in 0..70_usize {
        let right = ends_right(rt.alloc(), count)?;
        assert!(rt; right, "front of {count}");
    }
    Ok(())
}

#[test]
fn a_text_ends_with_its_last_byte_though_not_all_is_kept(
    rt: HostRuntime,
) -> Result<(), AllocError> {
    let cut = recording(rt.alloc(), CUT_TEXT, 57)?;
    let whole = recording(rt.alloc(), CUT_TEXT, 58)?;
    let answers = [
        answer_to(rt.alloc(), &cut, 4096),
        answer_to(rt.alloc(), &whole, 4096),
    ];
    assert_eq!(rt; answers, [Err(EngineFault::Truncated), Ok(0)]);
    Ok(())
}

fn answer_in_bgr233(alloc: Global, bytes: &[u8]) -> Result<u64, EngineFault> {
    let mut viewer = viewer_in(alloc, Format::bgr233());
    let answer = play(&mut Tally::new(bytes), &mut viewer);
    drop(viewer);
    answer
}

#[test]
fn a_recording_in_a_smaller_format_goes_on_in_mid_message(
    rt: HostRuntime,
) -> Result<(), AllocError> {
    let bytes = recording(rt.alloc(), UPDATE, 69)?;
    let answer = answer_in_bgr233(rt.alloc(), &bytes);
    assert_eq!(rt; answer, Err(EngineFault::Truncated));
    Ok(())
}

// A handshake, and `updates` updates.
fn long_recording(alloc: Global, updates: u32) -> Result<Vec<u8>, AllocError> {
    let mut bytes = HANDSHAKE.to_vec(alloc)?;
    for _ in 0..updates {
        bytes.extend_from_slice(UPDATE)?;
    }
    Ok(bytes)
}

#[test]
fn each_update_is_counted_once_across_reads(rt: HostRuntime) -> Result<(), AllocError> {
    let bytes = long_recording(rt.alloc(), 500)?;
    for most in [1, 13, 127, 4093, 4096, 5000] {
        let answer = answer_to(rt.alloc(), &bytes, most);
        assert_eq!(rt; answer, Ok(500), "reads of {most}");
    }
    Ok(())
}

// Whether the read after `calls` reads of one byte fails, is reported, and is not tried again.
fn fails_once(alloc: Global, bytes: &[u8], calls: usize) -> bool {
    let mut viewer = viewer_in(alloc, Format::rgb888());
    let mut source = FailingReader {
        unread: bytes,
        calls,
        failures: 0,
    };
    let answer = play(&mut source, &mut viewer);
    drop(viewer);
    answer == Err(EngineFault::Device)
        && source.failures == 1
        && source.unread == &bytes[calls.min(bytes.len())..]
}

#[test]
fn a_failing_read_is_reported_and_not_tried_again(rt: HostRuntime) -> Result<(), AllocError> {
    let bytes = recording(rt.alloc(), UPDATE, 69)?;
    for calls in 0..70_usize {
        assert!(rt;
            fails_once(rt.alloc(), &bytes, calls),
            "after {calls} reads"
        );
    }
    Ok(())
}
