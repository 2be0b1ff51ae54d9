//! Rows of pixels: their values of colours, and colours of their bytes.

ghost use Rattle.std.specs.Prelude.{◌≡◌, ◌+◌, ◌*◌, ◌≤◌, length, map};
ghost use Rattle.rfb_pixel.specs.Format.{rgb888, size_of, pixel_of};
ghost use Rattle.rfb_pixel.specs.Format.{ArePixels, AreColours};
ghost use Rattle.rfb_pixel.specs.bits.Lanes.{ArePacked, AreUnpacked, laned};

use crate::colour::Colour;
use crate::format::Format;
use crate::lanes::{BGR233, LANES, RGB565, RGB888, laned, laned_size, pack_eight, unpack_eight};

impl Format {
    /// Writes the pixel value of each colour of a row. Each fits the format's size.
    pub fn pack_row(&self, colours: &[Colour], pixels: &mut [u32])
        requires { length colours.now ≡ length pixels.old }
        ensures value { pixels.new ≡ map (pixel_of self.now) colours.now }
        ensures bound { ArePixels self.now pixels.new }
    {
        // The loops for the formats that most viewers ask for are far shorter.
        if *self == Format::rgb888() {
            pack_rgb888(colours, pixels);
        } else if *self == Format::rgb565() {
            pack_by_eights::<RGB565>(colours, pixels);
        } else if *self == Format::bgr233() {
            pack_by_eights::<BGR233>(colours, pixels);
        } else {
            pack_other(*self, colours, pixels);
        }
    }

    /// Writes the colour of each pixel of a row, whose bytes follow one another.
    #[inline(always)]
    pub fn unpack_row(&self, bytes: &[u8], colours: &mut [Colour])
        requires { length bytes.now ≡ length colours.old * size_of self.now }
        ensures { AreColours self.now bytes.now colours.new }
    {
        // As for `pack_row`, a loop each. That of the format that this project announces becomes a
        // part of callers who know the format. The others are calls: with their loops in it this
        // would be too large to be a part of any.
        if *self == Format::rgb888() {
            unpack_rgb888(bytes, colours);
        } else if *self == Format::rgb565() {
            unpack_by_eights::<RGB565>(bytes, colours);
        } else if *self == Format::bgr233() {
            unpack_by_eights::<BGR233>(bytes, colours);
        } else {
            unpack_singly(*self, bytes, colours);
        }
    }

    /// Writes the colour of each of sixteen pixels of rgb888, whose bytes follow one another.
    #[inline(always)]
    pub fn unpack_sixteen(bytes: &[u8], colours: &mut [Colour])
        requires bytes { length bytes.now ≡ 64 }
        requires colours { length colours.old ≡ 16 }
        ensures { AreColours rgb888 bytes.now colours.new }
    {
        unpack_sixteen_at(bytes, 0, colours);
    }
}

// Writes the pixel value of each colour, by one loop for every format. It is a function by itself,
// so that the loops for the formats that most viewers ask for have all registers to themselves.
#[inline(never)]
fn pack_other(format: Format, colours: &[Colour], pixels: &mut [u32])
    requires { length colours.now ≡ length pixels.old }
    ensures value { pixels.new ≡ map (pixel_of format) colours.now }
    ensures bound { ArePixels format pixels.new }
{
    for i in 0..colours.len() {
        pixels[i] = format.pack(colours[i]);
    }
}

// The same in rgb888, by sixteen colours at once.
fn pack_rgb888(colours: &[Colour], pixels: &mut [u32])
    requires { length colours.now ≡ length pixels.old }
    ensures value { pixels.new ≡ map (pixel_of rgb888) colours.now }
    ensures bound { ArePixels rgb888 pixels.new }
{
    if colours.len() < LANES {
        pack_other(Format::rgb888(), colours, pixels);
        return;
    }
    if colours.len() < 2 * LANES {
        pack_eight_at::<RGB888>(colours, 0, pixels);
        pack_eight_at::<RGB888>(colours, colours.len() - LANES, pixels);
        return;
    }
    let last = colours.len() - 2 * LANES;
    let mut at = 0;
    while at < last {
        pack_sixteen_at(colours, at, pixels);
        at += 2 * LANES;
    }
    pack_sixteen_at(colours, last, pixels);
}

// Writes the pixel values of sixteen colours, where those before them are written.
#[inline(always)]
fn pack_sixteen_at(colours: &[Colour], at: usize, pixels: &mut [u32])
    requires within { at + 16 ≤ length colours.now }
    requires len { length colours.now ≡ length pixels.old }
    requires front { ArePacked rgb888 at colours.now pixels.old }
    ensures packed { ArePacked rgb888 (at + 16) colours.now pixels.new }
    ensures len { length pixels.new ≡ length pixels.old }
{
    pack_eight_at::<RGB888>(colours, at, pixels);
    pack_eight_at::<RGB888>(colours, at + LANES, pixels);
}

// The same of eight, in the format of that number.
#[inline(always)]
fn pack_eight_at<const NUMBER: usize>(colours: &[Colour], at: usize, pixels: &mut [u32])
    requires within { at + 8 ≤ length colours.now }
    requires len { length colours.now ≡ length pixels.old }
    requires front { ArePacked (laned NUMBER) at colours.now pixels.old }
    ensures packed { ArePacked (laned NUMBER) (at + 8) colours.now pixels.new }
    ensures len { length pixels.new ≡ length pixels.old }
{
    pack_eight::<NUMBER>(&colours[at..at + LANES]).copy_to_slice(&mut pixels[at..]);
}

// The same of a row, by eight colours at once.
fn pack_by_eights<const NUMBER: usize>(colours: &[Colour], pixels: &mut [u32])
    requires { length colours.now ≡ length pixels.old }
    ensures value { pixels.new ≡ map (pixel_of (laned NUMBER)) colours.now }
    ensures bound { ArePixels (laned NUMBER) pixels.new }
{
    if colours.len() < LANES {
        pack_other(laned::<NUMBER>(), colours, pixels);
        return;
    }
    let last = colours.len() - LANES;
    let mut at = 0;
    while at < last {
        pack_eight_at::<NUMBER>(colours, at, pixels);
        at += LANES;
    }
    pack_eight_at::<NUMBER>(colours, last, pixels);
}

// Writes the colour of each pixel, by one loop for every format.
#[inline(always)]
fn unpack_each(format: Format, bytes: &[u8], colours: &mut [Colour])
    requires { length bytes.now ≡ length colours.old * size_of format }
    ensures { AreColours format bytes.now colours.new }
{
    let size = format.size();
    for (k, colour) in colours.iter_mut().enumerate() {
        *colour = format.unpack(format.take(&bytes[k * size..k * size + size]));
    }
}

// The same by a call, for rows of fewer than eight, and for formats that have no lanes.
#[inline(never)]
fn unpack_singly(format: Format, bytes: &[u8], colours: &mut [Colour])
    requires { length bytes.now ≡ length colours.old * size_of format }
    ensures { AreColours format bytes.now colours.new }
{
    if format == Format::rgb888() {
        unpack_each(Format::rgb888(), bytes, colours);
    } else {
        unpack_each(format, bytes, colours);
    }
}

// The same of rgb888, by sixteen pixels at once.
#[inline(always)]
fn unpack_rgb888(bytes: &[u8], colours: &mut [Colour])
    requires { length bytes.now ≡ length colours.old * 4 }
    ensures { AreColours rgb888 bytes.now colours.new }
{
    if colours.len() < LANES {
        unpack_singly(Format::rgb888(), bytes, colours);
        return;
    }
    if colours.len() < 2 * LANES {
        unpack_eight_at::<RGB888>(bytes, 0, colours);
        unpack_eight_at::<RGB888>(bytes, colours.len() - LANES, colours);
        return;
    }
    let last = colours.len() - 2 * LANES;
    let mut at = 0;
    while at < last {
        unpack_sixteen_at(bytes, at, colours);
        at += 2 * LANES;
    }
    unpack_sixteen_at(bytes, last, colours);
}

// Writes the colours of sixteen pixels of rgb888, where those before them are written.
#[inline(always)]
fn unpack_sixteen_at(bytes: &[u8], at: usize, colours: &mut [Colour])
    requires within { at + 16 ≤ length colours.old }
    requires bytes { length bytes.now ≡ length colours.old * 4 }
    requires front { AreUnpacked rgb888 at bytes.now colours.old }
    ensures unpacked { AreUnpacked rgb888 (at + 16) bytes.now colours.new }
    ensures len { length colours.new ≡ length colours.old }
{
    unpack_eight_at::<RGB888>(bytes, at, colours);
    unpack_eight_at::<RGB888>(bytes, at + LANES, colours);
}

// The same of eight, of the format of that number.
#[inline(always)]
fn unpack_eight_at<const NUMBER: usize>(bytes: &[u8], at: usize, colours: &mut [Colour])
    requires within { at + 8 ≤ length colours.old }
    requires bytes { length bytes.now ≡ length colours.old * size_of (laned NUMBER) }
    requires front { AreUnpacked (laned NUMBER) at bytes.now colours.old }
    ensures unpacked { AreUnpacked (laned NUMBER) (at + 8) bytes.now colours.new }
    ensures len { length colours.new ≡ length colours.old }
{
    let size = laned_size::<NUMBER>();
    let part = &bytes[at * size..at * size + LANES * size];
    unpack_eight::<NUMBER>(part, &mut colours[at..at + LANES]);
}

// The same of a row, by eight pixels at once.
#[inline(never)]
fn unpack_by_eights<const NUMBER: usize>(bytes: &[u8], colours: &mut [Colour])
    requires { length bytes.now ≡ length colours.old * size_of (laned NUMBER) }
    ensures { AreColours (laned NUMBER) bytes.now colours.new }
{
    if colours.len() < LANES {
        unpack_singly(laned::<NUMBER>(), bytes, colours);
        return;
    }
    let last = colours.len() - LANES;
    let mut at = 0;
    while at < last {
        unpack_eight_at::<NUMBER>(bytes, at, colours);
        at += LANES;
    }
    unpack_eight_at::<NUMBER>(bytes, last, colours);
}
