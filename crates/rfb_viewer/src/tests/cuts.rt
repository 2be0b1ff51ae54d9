//! Servers' streams whole, byte by byte, in two slices, and damaged: events and pictures don't
//! depend on where they are split.

use super::hostile::FAULTS;
use super::*;
use crate::ViewerFault;
use std::fmt::Debug;

// Handshakes of each version and messages after them, of a viewer that is at bgr233: updates of
// each encoding, a text above its limit and one of no bytes, colours and bells. Then refusals, and
// faults in an update.
const SERVERS: &[&[u8]] = &[
    b"RFB 003.008\n\x03\x10\x02\x01\0\0\0\0\0\x02\0\x01\x20\x18\0\x01\0\xFF\0\xFF\0\xFF\x10\x08\0\0\0\0\0\0\0\x01t\0\0\0\x01\0\0\0\0\0\x02\0\x01\0\0\0\0\x27\x10\x02",
    b"RFB 003.007\n\x01\x01\0\x02\0\x01\x20\x18\0\x01\0\xFF\0\xFF\0\xFF\x10\x08\0\0\0\0\0\0\0\0\x03\0\0\0\0\0\0\x05ABCDE\x02\x03\0\0\0\0\0\0\0\x01\0\0\x05\0\x01\x01\x02\x03\x04\x05\x06",
    b"RFB 003.889\n\0\0\0\x01\0\x11\0\x01................\0\0\0\0\0\0\0\x02\0\0\0\0\0\x11\0\x01\0\0\0\x05\x1A\x10\x01\x20\0\0\x02\x30\0\x01\0\0\0\x10\0\x01\0\0\0\x01\0\0\0\0\0\0\0\0",
    b"RFB 003.003\n\0\0\0\x01\0\x03\0\x01................\0\0\0\0\0\0\0\x01\0\0\0\0\0\x03\0\x01\0\0\0\x02\0\0\0\x02\0\x07\0\0\0\0\0\x02\0\x01\x38\0\x01\0\0\0\x02\0\x01",
    b"RFB 003.008\n\0\0\0\0\x02No",
    b"RFB 003.008\n\x01\x01\0\0\0\x01\0\0\0\x02No",
    b"RFB 003.003\n\0\0\0\x01\0\x02\0\x01................\0\0\0\0\0\0\0\x02\0\0\0\0\0\x02\0\x01\0\0\0\x02\xFF\xFF\xFF\xFF\x10\x20\0\x02\0\0\0\x01\0\x01",
    b"RFB 003.003\n\0\0\0\x01\0\x02\0\x01................\0\0\0\0\0\0\0\x02\0\0\0\0\0\x02\0\x01\0\0\0\x05\x0E\x10\x20\x01\x10\0\0\0\0\0\0\x02\0\x01\0\0\0\x05\x08",
    b"RFB 003.003\n\0\0\0\x01\0\x01\0\x01................\0\0\0\0\0\0\0\x01\0\0\0\0\0\x01\0\x01\0\0\0\x01\0\x01\0\0",
    // Masks of a second tile: both colour bits, and subrectangles without a foreground.
    b"RFB 003.003\n\0\0\0\x01\0\x11\0\x01................\0\0\0\0\0\0\0\x01\0\0\0\0\0\x11\0\x01\0\0\0\x05\x02\x10\x1C",
    b"RFB 003.003\n\0\0\0\x01\0\x11\0\x01................\0\0\0\0\0\0\0\x01\0\0\0\0\0\x11\0\x01\0\0\0\x05\x02\x10\x08",
    // A screen of more places than are admitted, and one of none.
    b"RFB 003.003\n\0\0\0\x01\xFF\xFF\xFF\xFF................\0\0\0\0",
    b"RFB 003.003\n\0\0\0\x01\0\0\0\x01................\0\0\0\0",
];

// The same of a viewer that is at rgb888 up to the end of its first update: updates of Raw, the
// second at bgr233; of two tiles; of Raw and of a copy that overlaps its source.
const WIDE_SERVERS: &[&[u8]] = &[
    b"RFB 003.008\n\x01\x01\0\0\0\0\0\x01\0\x01\x20\x18\0\x01\0\xFF\0\xFF\0\xFF\x10\x08\0\0\0\0\0\0\0\x01t\0\0\0\x01\0\0\0\0\0\x01\0\x01\0\0\0\0\x01\x80\xFF\0\0\0\0\x01\0\0\0\0\0\x01\0\x01\0\0\0\0\x27",
    b"RFB 003.003\n\0\0\0\x01\0\x11\0\x01................\0\0\0\0\0\0\0\x01\0\0\0\0\0\x11\0\x01\0\0\0\x05\x02\x01\x80\xFF\0\0",
    b"RFB 003.003\n\0\0\0\x01\0\x04\0\x01................\0\0\0\0\0\0\0\x02\0\0\0\0\0\x04\0\x01\0\0\0\0\x01\x02\x03\0\x04\x05\x06\0\x07\x08\x09\0\x0A\x0B\x0C\0\0\x01\0\0\0\x03\0\x01\0\0\0\x01\0\0\0\0",
];

// Writes a line to the log: a number of bytes, and what came after them.
fn note<T: Debug>(at: usize, seen: &T, log: &mut String) -> Result<(), AllocError> {
    writeln!(log, "{at} {seen:?}")
}

// Feeds bytes, which may give an event. After an update the format is bgr233.
fn feed(viewer: &mut Viewer, bytes: &[u8]) -> Result<Fed<ViewerEvent>, ViewerFault> {
    let told = viewer.feed(bytes);
    if let Ok(
        Fed {
            event: Some(ViewerEvent::UpdateDone),
            ..
        },
    ) = &told
    {
        let _bytes = viewer.set_format(Format::bgr233());
    }
    told
}

// Writes an event, or a fault, and how many bytes are used then. None goes on after a fault.
fn note_told(
    before: usize,
    told: &Result<Fed<ViewerEvent>, ViewerFault>,
    log: &mut String,
) -> Result<Option<usize>, AllocError> {
    match told {
        Ok(fed) => {
            if let Some(event) = &fed.event {
                note(before.saturating_add(fed.used), event, log)?;
            }
            Ok(Some(fed.used))
        }
        Err(fault) => {
            note(0, fault, log)?;
            Ok(None)
        }
    }
}

// Feeds a rest that comes after a number of bytes, up to the next event.
fn feed_next(
    viewer: &mut Viewer,
    rest: &[u8],
    before: usize,
    log: &mut String,
) -> Result<Option<usize>, AllocError> {
    let told = feed(viewer, rest);
    note_told(before, &told, log)
}

// Feeds a slice that comes after a number of bytes: writes each event with the number of bytes up
// to it, and a fault. Whether no fault came.
fn feed_all(
    viewer: &mut Viewer,
    slice: &[u8],
    before: usize,
    log: &mut String,
) -> Result<bool, AllocError> {
    let mut at = 0usize;
    for _ in 0..slice.len() {
        let rest = slice.get(at..).unwrap_or_default();
        match feed_next(viewer, rest, before.saturating_add(at), log)? {
            Some(used) => at = at.saturating_add(used),
            None => return Ok(false),
        }
    }
    Ok(true)
}

// All events of a stream that is split into slices: its first bytes, and then slices of one length.
fn feed_slices(
    viewer: &mut Viewer,
    stream: &[u8],
    first: usize,
    size: usize,
    log: &mut String,
) -> Result<(), AllocError> {
    let (front, back) = stream.split_at(first.min(stream.len()));
    let mut at = front.len();
    let mut good = feed_all(viewer, front, 0, log)?;
    for slice in back.chunks(size.max(1)) {
        good = good && feed_all(viewer, slice, at, log)?;
        at = at.saturating_add(slice.len());
    }
    Ok(())
}

fn height_of(viewer: &Viewer) -> u16 {
    match viewer.picture() {
        Some(picture) => picture.height(),
        None => 0,
    }
}

// Writes the picture, if there is one.
fn show(viewer: &Viewer, log: &mut String) -> Result<(), AllocError> {
    for y in 0..height_of(viewer) {
        note(usize::from(y), &row_of(viewer, y), log)?;
    }
    Ok(())
}

// Writes what a viewer that begins in this format reports of a stream, and shows at its end.
fn note_all(
    alloc: Global,
    format: Format,
    stream: &[u8],
    (first, size): (usize, usize),
    log: &mut String,
) -> Result<(), AllocError> {
    let mut viewer = viewer(alloc, format, Version::V38);
    feed_slices(&mut viewer, stream, first, size, log)?;
    show(&viewer, log)
}

// That log.
fn told(
    alloc: Global,
    format: Format,
    stream: &[u8],
    cut: (usize, usize),
) -> Result<String, AllocError> {
    let mut log = String::new(alloc);
    note_all(alloc, format, stream, cut, &mut log)?;
    Ok(log)
}

// Whether a stream that is split so gives what it gives whole.
fn is_same_when_split(
    alloc: Global,
    format: Format,
    stream: &[u8],
    cut: (usize, usize),
) -> Result<bool, AllocError> {
    let whole = told(alloc, format, stream, (stream.len(), 1))?;
    let slices = told(alloc, format, stream, cut)?;
    Ok(slices.as_str() == whole.as_str())
}

// Whether it gives byte by byte and in two slices, split at each byte, what it gives whole.
fn is_same_at_all_splits(alloc: Global, format: Format, stream: &[u8]) -> Result<bool, AllocError> {
    let mut good = is_same_when_split(alloc, format, stream, (1, 1))?;
    for first in 0..stream.len() {
        good = good && is_same_when_split(alloc, format, stream, (first, stream.len()))?;
    }
    Ok(good)
}

// Whether the events are the same byte by byte and whole where its byte at this offset is another.
fn is_same_with(
    alloc: Global,
    format: Format,
    stream: &[u8],
    place: usize,
    damage: u8,
) -> Result<bool, AllocError> {
    let mut damaged = stream.to_vec(alloc)?;
    if let Some(byte) = damaged.get_mut(place) {
        *byte = damage;
    }
    is_same_when_split(alloc, format, &damaged, (1, 1))
}

// The same where each byte in turn is 00, and FF.
fn is_same_damaged(alloc: Global, format: Format, stream: &[u8]) -> Result<bool, AllocError> {
    let mut good = true;
    for place in 0..stream.len() {
        good = good && is_same_with(alloc, format, stream, place, 0)?;
        good = good && is_same_with(alloc, format, stream, place, 0xFF)?;
    }
    Ok(good)
}

// Whether a stream gives the same wherever it is split, and damaged.
fn is_same_however_fed(alloc: Global, format: Format, stream: &[u8]) -> Result<bool, AllocError> {
    let good = is_same_at_all_splits(alloc, format, stream)?;
    Ok(good && is_same_damaged(alloc, format, stream)?)
}

// The number of the first stream that is not, if one is not.
fn first_wrong(
    alloc: Global,
    format: Format,
    streams: &[&[u8]],
) -> Result<Option<usize>, AllocError> {
    for at in 0..streams.len() {
        if !is_same_however_fed(alloc, format, streams[at])? {
            return Ok(Some(at));
        }
    }
    Ok(None)
}

#[test]
fn events_do_not_depend_on_how_bytes_are_split(rt: HostRuntime) -> Result<(), AllocError> {
    let wrong = first_wrong(rt.alloc(), Format::bgr233(), SERVERS)?;
    assert_eq!(rt; wrong, None);
    let wrong = first_wrong(rt.alloc(), Format::rgb888(), WIDE_SERVERS)?;
    assert_eq!(rt; wrong, None);
    Ok(())
}

// A handshake of a screen of 2 by 1, and after it an update that ends in a fault.
fn faulty(alloc: Global, slices: &[&[u8]]) -> Result<Vec<u8>, AllocError> {
    let mut stream = HELLO_2_BY_1.to_vec(alloc)?;
    for slice in slices {
        stream.extend_from_slice(slice)?;
    }
    Ok(stream)
}

fn is_fault_told(alloc: Global, slices: &[&[u8]]) -> Result<bool, AllocError> {
    let stream = faulty(alloc, slices)?;
    is_same_however_fed(alloc, Format::bgr233(), &stream)
}

// The number of the first row of the table that does not give its event, if one does not.
fn first_wrong_fault(alloc: Global) -> Result<Option<usize>, AllocError> {
    for at in 0..FAULTS.len() {
        let (slices, _, _) = FAULTS[at];
        if !is_fault_told(alloc, slices.as_slice())? {
            return Ok(Some(at));
        }
    }
    Ok(None)
}

#[test]
fn nor_does_it_where_an_update_is_at_fault(rt: HostRuntime) -> Result<(), AllocError> {
    assert_eq!(rt; first_wrong_fault(rt.alloc())?, None);
    Ok(())
}
