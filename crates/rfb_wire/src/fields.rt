//! The fields of heads, read from bytes and appended to a spelling. Numbers are big-endian.

ghost use Rattle.std.specs.Prelude.{◌≡◌, ◌+◌, ◌≤◌, ◌++◌, length};
ghost use Rattle.arrayvec.specs.ArrayVec.{array_vec_len};
ghost use Rattle.byteorder.specs.Endian.{big_bytes};
ghost use Rattle.rfb_wire.specs.Fields.{IsRectAt, rect_bytes};

use crate::pieces::append;
use arrayvec::ArrayVec;
use byteorder::{BigEndian, ByteOrder};
use rfb_picture::Rect;

/// How many bytes the longest head has, that of SetPixelFormat.
pub const MAX_HEAD: usize = 20;

/// The bytes of a head.
pub type Spelling = ArrayVec<u8, MAX_HEAD>;

/// The rectangle that the bytes begin with.
pub fn read_rect(bytes: &[u8]) -> Rect
    requires { 8 ≤ length bytes.now }
    ensures { IsRectAt 0 result bytes.now }
{
    let x = BigEndian::read_u16(bytes);
    let y = BigEndian::read_u16(&bytes[2..]);
    let w = BigEndian::read_u16(&bytes[4..]);
    let h = BigEndian::read_u16(&bytes[6..]);
    Rect::new(x, y, w, h)
}

/// Appends a U16.
pub fn append_u16(spelling: &mut Spelling, number: u16)
    requires { array_vec_len spelling.old + 2 ≤ MAX_HEAD }
    ensures { spelling.new.items ≡ spelling.old.items ++ big_bytes 2 number }
{
    let mut field = [0; 2];
    BigEndian::write_u16(&mut field, number);
    append(spelling, &field);
}

/// Appends a U32.
pub fn append_u32(spelling: &mut Spelling, number: u32)
    requires { array_vec_len spelling.old + 4 ≤ MAX_HEAD }
    ensures { spelling.new.items ≡ spelling.old.items ++ big_bytes 4 number }
{
    let mut field = [0; 4];
    BigEndian::write_u32(&mut field, number);
    append(spelling, &field);
}

/// Appends x-position, y-position, width and height.
pub fn append_rect(spelling: &mut Spelling, rect: Rect)
    requires { array_vec_len spelling.old + 8 ≤ MAX_HEAD }
    ensures value { spelling.new.items ≡ spelling.old.items ++ rect_bytes rect }
    ensures read_back { IsRectAt 0 rect (rect_bytes rect) }
{
    append_u16(spelling, rect.x);
    append_u16(spelling, rect.y);
    append_u16(spelling, rect.w);
    append_u16(spelling, rect.h);
}
