//! A name and a text of the greatest length: their first MiB is kept, the rest taken.

use super::play::{Step, Told, are_right, fault_at, tells};
use super::*;
use crate::ViewerFault;

fn with_long_texts(alloc: Global) -> Viewer {
    let mut encodings = ArrayVec::new();
    encodings.push(Encoding::Raw);
    Viewer::new(
        alloc,
        Format::rgb888(),
        encodings,
        Version::V38,
        true,
        16,
        1_048_576,
    )
}

// Whether 3 MiB of a text are taken, 64 KiB at a time.
fn takes_three_mib(viewer: &mut Viewer, slice: &[u8]) -> bool {
    let mut good = true;
    for _ in 0..48 {
        good &= tells(viewer, slice, 65_536, Told::Nothing);
    }
    good
}

// A server of 3.3, up to ServerInit of a screen of 1 by 1.
const VERSION: Step<'static> = Step::Feed(b"RFB 003.003\n", 12, Told::Reply(b"RFB 003.003\n"));

const NONE: Step<'static> = Step::Feed(b"\0\0\0\x01", 4, Told::Reply(b"\x01"));

// A name of 4,294,967,295 bytes, before which there is a screen.
const LONGEST_NAME: &[Step<'static>] = &[
    VERSION,
    NONE,
    Step::Feed(
        b"\0\x01\0\x01................\xFF\xFF\xFF\xFF",
        24,
        Told::Nothing,
    ),
    Step::Shows(&[BLACK]),
];

// The rest of the handshake, whose screen has no name.
const NAMELESS: Step<'static> = Step::Feed(
    b"\0\x01\0\x01................\0\0\0\0",
    24,
    Told::Ready(1, 1, b"", 0),
);

// A text of 4,294,967,295 bytes, and one of 1 MiB.
const LONGEST_TEXT: &[Step<'static>] = &[
    VERSION,
    NONE,
    NAMELESS,
    Step::Feed(b"\x03\0\0\0\xFF\xFF\xFF\xFF", 8, Told::Nothing),
];

const TEXT_AT_THE_LIMIT: &[Step<'static>] = &[
    VERSION,
    NONE,
    NAMELESS,
    Step::Feed(b"\x03\0\0\0\0\x10\0\0", 8, Told::Nothing),
];

// Whether these steps go as they should, and after them 3 MiB of a text are taken.
fn takes_longest(alloc: Global, steps: &[Step<'_>], slice: &[u8]) -> bool {
    let mut viewer = with_long_texts(alloc);
    are_right(&mut viewer, steps) && takes_three_mib(&mut viewer, slice)
}

// `count` bytes of a text.
fn letters(alloc: Global, count: usize) -> Result<Vec<u8>, AllocError> {
    let mut letters = Vec::new(alloc);
    letters.resize(count, b'n')?;
    Ok(letters)
}

#[test]
fn the_longest_name_is_taken_slice_by_slice(rt: HostRuntime) -> Result<(), AllocError> {
    let slice = letters(rt.alloc(), 65_536)?;
    assert!(rt; takes_longest(rt.alloc(), LONGEST_NAME, &slice));
    Ok(())
}

#[test]
fn the_longest_text_is_taken_slice_by_slice(rt: HostRuntime) -> Result<(), AllocError> {
    let slice = letters(rt.alloc(), 65_536)?;
    assert!(rt; takes_longest(rt.alloc(), LONGEST_TEXT, &slice));
    Ok(())
}

// Whether a text of 1 MiB comes whole in its event.
fn tells_whole(alloc: Global, text: &[u8]) -> bool {
    let mut viewer = with_long_texts(alloc);
    are_right(&mut viewer, TEXT_AT_THE_LIMIT)
        && tells(&mut viewer, text, 1_048_576, Told::Text(text, 1_048_576))
}

#[test]
fn a_text_at_the_limit_is_kept_whole(rt: HostRuntime) -> Result<(), AllocError> {
    let text = letters(rt.alloc(), 1_048_576)?;
    assert!(rt; tells_whole(rt.alloc(), &text));
    Ok(())
}

// Whether all of a stream is taken, or want of memory is reported, and then reported once more.
fn is_taken_or_wants_memory(viewer: &mut Viewer, stream: &[u8]) -> bool {
    for byte in stream.chunks(1) {
        if let Some(fault) = fault_at(viewer, byte) {
            return fault == ViewerFault::NoMemory && fault_at(viewer, byte) == Some(fault);
        }
    }
    viewer.between()
}

fn tells_want_of_memory(alloc: Global) -> bool {
    let mut viewer = viewer(alloc, Format::rgb888(), Version::V38);
    let stream =
        b"RFB 003.003\n\0\0\0\x01\0\x02\0\x01................\0\0\0\x01t\x03\0\0\0\0\0\0\x02AB";
    is_taken_or_wants_memory(&mut viewer, stream)
}

// The screen, the name and a text take memory. Where it is refused, that is reported once more, and
// else all is taken.
#[test]
fn want_of_memory_is_reported_for_good(rt: HostRuntime) {
    assert!(rt; tells_want_of_memory(rt.alloc()));
}
