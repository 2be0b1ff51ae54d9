//! Words of a line that mean a value.

ghost use Rattle.std.specs.Prelude.{◌≡◌, ◌≢◌, ◌<◌, ◌↔◌, ◌∷◌, ◌+◌, ◌*◌, [], ℕ, Ok, IfSome, IsSome};
ghost use Rattle.std.specs.Prelude.{List, MatchOption, length};
ghost use Rattle.std.specs.List.{AllPass};
ghost use Rattle.std.specs.Str.Parse.{digits_value};
ghost use Rattle.hex.specs.Hex.{is_hex_digit};
ghost use Rattle.rfb_pixel.specs.Format.{PixelFormat};
ghost use Rattle.rfb_wire.specs.declared.encoding.Encoding.{Encoding};
ghost use Rattle.rfb_session.specs.language.Words.{AreEncodings, AreNumbers, AreRect, IsFormatWord};
ghost use Rattle.rfb_session.specs.language.Words.{IsSide, IsSlotWord};
ghost use Rattle.rfb_session.specs.language.Words.{name_of, parts_of, texts};
ghost use Rattle.rfb_session.specs.language.Words.{IsColourText, SaysBytes, SaysColour};
ghost use Rattle.rfb_session.specs.language.Words.{SaysComponents};

use crate::language::{pieces, read_number};
use arrayvec::ArrayVec;
use hex::FromHex;
use rfb_picture::Rect;
use rfb_pixel::{Colour, Format};
use rfb_wire::Encoding;

/// The longest side that a screen may have.
pub const MAX_SIDE: u16 = 4096;

const RGB888: &[u8] = b"rgb888";

const RGB565: &[u8] = b"rgb565";

const BGR233: &[u8] = b"bgr233";

const RGB101010: &[u8] = b"rgb101010";

const RAW: &[u8] = b"raw";

const COPY_RECT: &[u8] = b"copyrect";

const RRE: &[u8] = b"rre";

const HEXTILE: &[u8] = b"hextile";

/// A side of the screen.
pub fn read_side(word: &[u8]) -> Option<u16>
    ensures value { IfSome result (λ side. side ≡ digits_value 10 word.now) }
    ensures found { IsSome result ↔ (IsSide word.now) }
{
    read_number(word).filter(|side| (1..=MAX_SIDE).contains(side))
}

/// A slot: one digit.
pub fn read_slot(word: &[u8]) -> Option<u8>
    ensures { MatchOption result ((slot : ℕ) → ¬ (IsSlotWord word.now slot))
        (IsSlotWord word.now) }
{
    let [digit] = word else {
        return None;
    };
    if !digit.is_ascii_digit() {
        return None;
    }
    Some(*digit - b'0')
}

/// A rectangle, wherever it lies.
pub fn read_rect(x: &[u8], y: &[u8], w: &[u8], h: &[u8]) -> Option<Rect>
    ensures value { IfSome result (AreRect x.now y.now w.now h.now) }
    ensures found { IsSome result ↔ (AreNumbers x.now y.now w.now h.now) }
{
    Some(Rect {
        x: read_number(x)?,
        y: read_number(y)?,
        w: read_number(w)?,
        h: read_number(h)?,
    })
}

/// A colour: hexadecimal digits of either case, two for each component or four.
pub fn read_colour(word: &[u8]) -> Option<Colour>
    ensures value { IfSome result (SaysColour word.now) }
    ensures found { IsSome result ↔ (IsColourText word.now) }
{
    match word.len() {
        6 => read_bytes(word),
        12 => read_components(word),
        _ => None,
    }
}

// Six digits: the bytes of red, green and blue.
fn read_bytes(word: &[u8]) -> Option<Colour>
    ensures value { IfSome result (SaysBytes word.now) }
    ensures found { IsSome result ↔ ((length word.now ≡ 6) × AllPass is_hex_digit word.now) }
{
    let [r, g, b] = <[u8; 3] as FromHex>::from_hex(word).ok()?;
    Some(Colour::of_bytes(r, g, b))
}

// Twelve digits: red, green and blue.
fn read_components(word: &[u8]) -> Option<Colour>
    ensures value { IfSome result (SaysComponents word.now) }
    ensures found { IsSome result ↔ ((length word.now ≡ 12) × AllPass is_hex_digit word.now) }
{
    let [r, low_r, g, low_g, b, low_b] = <[u8; 6] as FromHex>::from_hex(word).ok()?;
    Some(Colour {
        r: component(r, low_r),
        g: component(g, low_g),
        b: component(b, low_b),
    })
}

// A component, of its high byte and its low one.
fn component(high: u8, low: u8) -> u16
    ensures { result ≡ high * 256 + low }
{
    u16::from(high) * 256 + u16::from(low)
}

/// A format, by its name.
pub fn read_format(word: &[u8]) -> Option<Format>
    ensures { MatchOption result ((format : PixelFormat) → ¬ (IsFormatWord word.now format))
        (IsFormatWord word.now) }
{
    if word == RGB888 {
        return Some(Format::rgb888());
    }
    if word == RGB565 {
        return Some(Format::rgb565());
    }
    if word == BGR233 {
        return Some(Format::bgr233());
    }
    if word == RGB101010 {
        return Some(Format::rgb101010());
    }
    None
}

/// An encoding, by its name.
pub fn read_encoding(word: &[u8]) -> Option<Encoding>
    ensures { MatchOption result ((encoding : Encoding) → word.now ≢ name_of encoding)
        (λ encoding. word.now ≡ name_of encoding) }
{
    if word == RAW {
        return Some(Encoding::Raw);
    }
    if word == COPY_RECT {
        return Some(Encoding::CopyRect);
    }
    if word == RRE {
        return Some(Encoding::Rre);
    }
    if word == HEXTILE {
        return Some(Encoding::Hextile);
    }
    None
}

/// One to four encodings. One that is named twice is kept twice.
pub fn read_encodings(words: &[&[u8]]) -> Option<ArrayVec<Encoding, 4>>
    ensures { MatchOption result
        ((encodings : List Encoding) → ¬ (AreEncodings (texts words.now) encodings))
        (λ encodings. AreEncodings (texts words.now) encodings.items) }
{
    let mut encodings = ArrayVec::new();
    for word in words {
        encodings.try_push(read_encoding(word)?).ok()?;
    }
    if encodings.as_slice().is_empty() {
        return None;
    }
    Some(encodings)
}

/// One to four encodings, parted by commas.
pub fn read_list(list: &[u8]) -> Option<ArrayVec<Encoding, 4>>
    ensures { MatchOption result
        ((encodings : List Encoding) → ¬ (AreEncodings (parts_of list.now) encodings))
        (λ encodings. AreEncodings (parts_of list.now) encodings.items) }
{
    read_encodings(pieces(list, b',')?.as_slice())
}
