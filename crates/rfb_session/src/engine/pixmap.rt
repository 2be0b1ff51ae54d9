//! Pictures as portable pixmaps (PPM), the files of Netpbm.

ghost use Rattle.std.specs.Prelude.{◌≡◌, ◌≤◌, ◌<◌, ◌+◌, ◌-◌, ◌*◌, ◌^◌, ◌++◌, ℕ, List, [], ◌∷◌};
ghost use Rattle.std.specs.Prelude.{length, take, OnOk, OnErr};
ghost use Rattle.std.specs.Io.KnownBytes.{Appends};
ghost use Rattle.rfb_session.specs.Devices.{AppendsBeginning, AppendsUpTo};
ghost use Rattle.rfb_session.specs.Pixmap.{components, header_of, pixmap};

use crate::engine::device::Sink;
use crate::engine::fault::Device;
use crate::engine::whole_write::send;
use itoa::Buffer;
use rfb_picture::Picture;
use rfb_pixel::Colour;
use std::marker::Model;

// How many bytes wait for a write, at most.
const ROOM: usize = 65_536;

// How many bytes a colour has.
const COLOUR_BYTES: usize = 6;

// How many colours are taken at once.
const PIECE: usize = 8;

// The bytes of that many.
const PIECE_BYTES: usize = 48;

/// Writes a picture as PPM: the header `P6`, the width and the height, the largest component, then
/// six bytes a place, row by row from the top. All is written where it gives `Ok`; where it gives
/// an error, a beginning was. It takes no memory.
pub fn ppm<W: Sink>(picture: &Picture<Colour>, sink: &mut W) -> Result<(), Device>
    requires countable { W.failed sink.old < 2 ^ 64 - 1 }
    ensures done { OnOk result
        (Appends (W.written sink.old) (W.written sink.new) (pixmap picture.now)) }
    ensures stopped { OnErr result
        (AppendsBeginning (W.written sink.old) (W.written sink.new) (pixmap picture.now)) }
    ensures none_failed { OnOk result (W.failed sink.new ≡ W.failed sink.old) }
    ensures one_failed { OnErr result (W.failed sink.new ≡ W.failed sink.old + 1) }
    ensures same_reference { W.reference sink.new ≡ W.reference sink.old }
{
    let width = picture.width();
    let height = picture.height();
    let mut waiting = header(width, height);
    for y in 0..height {
        gather(picture.row(0, y, width), &mut waiting, sink)?;
    }
    send(waiting.as_slice(), sink)
}

// What comes before the places of a picture of that size.
fn header(width: u16, height: u16) -> Waiting
    ensures { result ≡ header_of width height }
{
    let mut digits = Buffer::new();
    let mut text = Waiting::new();
    text.append(b"P6\n");
    text.append(digits.format(width).as_bytes());
    text.append(b" ");
    text.append(digits.format(height).as_bytes());
    text.append(b"\n65535\n");
    text
}

// The components of each colour, red first, wait after the bytes that do. Where there is no room
// for more, what waits is written.
fn gather<W: Sink>(colours: &[Colour], waiting: &mut Waiting, sink: &mut W) -> Result<(), Device>
    requires countable { W.failed sink.old < 2 ^ 64 - 1 }
    ensures done { OnOk result (AppendsUpTo (W.written sink.old) (W.written sink.new)
        (waiting.old ++ components colours.now) waiting.new) }
    ensures stopped { OnErr result (AppendsBeginning (W.written sink.old) (W.written sink.new)
        (waiting.old ++ components colours.now)) }
    ensures none_failed { OnOk result (W.failed sink.new ≡ W.failed sink.old) }
    ensures one_failed { OnErr result (W.failed sink.new ≡ W.failed sink.old + 1) }
    ensures same_reference { W.reference sink.new ≡ W.reference sink.old }
{
    let mut start = 0;
    while start < colours.len() {
        make_room(waiting, sink)?;
        let end = colours.len().min(start + waiting.room() / COLOUR_BYTES);
        waiting.append_components(&colours[start..end]);
        start = end;
    }
    Ok(())
}

// Writes what waits, where there is no room for the components of a colour.
fn make_room<W: Sink>(waiting: &mut Waiting, sink: &mut W) -> Result<(), Device>
    requires countable { W.failed sink.old < 2 ^ 64 - 1 }
    ensures room { OnOk result (length waiting.new + COLOUR_BYTES ≤ ROOM) }
    ensures done { OnOk result (AppendsUpTo (W.written sink.old) (W.written sink.new)
        waiting.old waiting.new) }
    ensures stopped { OnErr result (AppendsBeginning (W.written sink.old) (W.written sink.new)
        waiting.old) }
    ensures none_failed { OnOk result (W.failed sink.new ≡ W.failed sink.old) }
    ensures one_failed { OnErr result (W.failed sink.new ≡ W.failed sink.old + 1) }
    ensures same_reference { W.reference sink.new ≡ W.reference sink.old }
{
    if waiting.room() >= COLOUR_BYTES {
        return Ok(());
    }
    send(waiting.as_slice(), sink)?;
    waiting.clear();
    Ok(())
}

// Writes the components of each colour over all of the bytes.
fn put_components(bytes: &mut [u8], colours: &[Colour])
    requires { length bytes.old ≡ COLOUR_BYTES * length colours.now }
    ensures { bytes.new ≡ components colours.now }
{
    let mut start = 0;
    while colours.len() - start >= PIECE {
        let at = COLOUR_BYTES * start;
        put_piece(
            &mut bytes[at..at + PIECE_BYTES],
            &colours[start..start + PIECE],
        );
        start += PIECE;
    }
    for place in start..colours.len() {
        let at = COLOUR_BYTES * place;
        bytes[at..at + COLOUR_BYTES].copy_from_slice(&bytes_of(colours[place]));
    }
}

// Writes the components of eight colours. They are given to an array, as `copy_from_slice` would
// have them on the stack first.
#[inline(always)]
fn put_piece(bytes: &mut [u8], colours: &[Colour])
    requires room { length bytes.old ≡ PIECE_BYTES }
    requires many { length colours.now ≡ PIECE }
    ensures { bytes.new ≡ components colours.now }
{
    let Some(array) = bytes.as_mut_array() else {
        unreachable!()
    };
    *array = components_of(colours);
}

// The components of eight colours. Their bytes are written one by one: the compiler makes that into
// shuffles of vectors.
#[inline(always)]
fn components_of(colours: &[Colour]) -> [u8; PIECE_BYTES]
    requires { length colours.now ≡ PIECE }
    ensures { result ≡ components colours.now }
{
    let (a, b) = (bytes_of(colours[0]), bytes_of(colours[1]));
    let (c, d) = (bytes_of(colours[2]), bytes_of(colours[3]));
    let (e, f) = (bytes_of(colours[4]), bytes_of(colours[5]));
    let (g, h) = (bytes_of(colours[6]), bytes_of(colours[7]));
    [
        a[0], a[1], a[2], a[3], a[4], a[5], b[0], b[1], b[2], b[3], b[4], b[5], c[0], c[1], c[2],
        c[3], c[4], c[5], d[0], d[1], d[2], d[3], d[4], d[5], e[0], e[1], e[2], e[3], e[4], e[5],
        f[0], f[1], f[2], f[3], f[4], f[5], g[0], g[1], g[2], g[3], g[4], g[5], h[0], h[1], h[2],
        h[3], h[4], h[5],
    ]
}

// The components of a colour, two bytes each, the most significant first.
#[inline(always)]
fn bytes_of(colour: Colour) -> [u8; COLOUR_BYTES]
    ensures { result ≡ components (colour ∷ []) }
{
    let [r1, r0] = colour.r.to_be_bytes();
    let [g1, g0] = colour.g.to_be_bytes();
    let [b1, b0] = colour.b.to_be_bytes();
    [r1, r0, g1, g0, b1, b0]
}

// Bytes that wait for a write. An `ArrayVec` would write zeros over all that it removes.
#[derive(Drop)]
struct Waiting {
    bytes: [u8; ROOM],
    len: usize,
}

impl Model for Waiting {
    ghost Value = { List ℕ };

    ghost view = { λ w. take w.len w.bytes };

    ghost invariant = { λ w. w.len ≤ 65536 };
}

impl Waiting {
    // No bytes.
    fn new() -> Self
        ensures { result ≡ [] }
    {
        Waiting {
            bytes: [0; ROOM],
            len: 0,
        }
    }

    // The bytes, in their order.
    fn as_slice(&self) -> &[u8]
        ensures { result.now ≡ self.now }
    {
        &self.bytes[..self.len]
    }

    // For how many bytes more there is room.
    fn room(&self) -> usize
        ensures { result + length self.now ≡ ROOM }
    {
        ROOM - self.len
    }

    // Puts these bytes after the others.
    fn append(&mut self, bytes: &[u8])
        requires { length self.old + length bytes.now ≤ ROOM }
        ensures { self.new ≡ self.old ++ bytes.now }
    {
        let end = self.len + bytes.len();
        self.bytes[self.len..end].copy_from_slice(bytes);
        self.len = end;
    }

    // Puts the components of these colours after them.
    fn append_components(&mut self, colours: &[Colour])
        requires fits { length self.old + COLOUR_BYTES * length colours.now ≤ ROOM }
        ensures { self.new ≡ self.old ++ components colours.now }
    {
        let end = self.len + COLOUR_BYTES * colours.len();
        put_components(&mut self.bytes[self.len..end], colours);
        self.len = end;
    }

    // Removes all bytes.
    fn clear(&mut self)
        ensures { self.new ≡ [] }
    {
        self.len = 0;
    }
}
