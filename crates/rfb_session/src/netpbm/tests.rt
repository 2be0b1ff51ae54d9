//! Files as Netpbm's page of PPM has them, a read that fails, and want of memory.

use super::*;
use std::alloc::Global;
use std::io;
use std::io::{ErrorKind, Read};

// A column of two places with a byte a component, with each kind of blank and two comments before.
const BYTES: &[u8] = b"P6 # a column\n#of two\n1\t2\r255\n\x01\x02\x03\x04\x05\xFF";

const OF_BYTES: &[Colour] = &[
    Colour {
        r: 257,
        g: 514,
        b: 771,
    },
    Colour {
        r: 1028,
        g: 1285,
        b: 65_535,
    },
];

// A row of two places with two bytes a component.
const WORDS: &[u8] = b"P6\n2 1\n65535\n\x01\x02\x03\x04\x05\x06\xFF\x08\x09\x0A\x0B\x0C";

const OF_WORDS: &[Colour] = &[
    Colour {
        r: 0x0102,
        g: 0x0304,
        b: 0x0506,
    },
    Colour {
        r: 0xFF08,
        g: 0x090A,
        b: 0x0B0C,
    },
];

// Whether a file is read as a picture of these sides, with these colours.
fn reads_as(alloc: Global, mut file: &[u8], width: u16, height: u16, colours: &[Colour]) -> bool {
    match read_ppm(alloc, &mut file) {
        Ok(picture) => {
            let is_so_large = picture.width == width && picture.height == height;
            is_so_large && picture.places.as_slice() == colours
        }
        Err(_) => false,
    }
}

#[test]
fn a_file_is_read_as_the_picture_that_it_spells(rt: HostRuntime) {
    assert!(rt; reads_as(rt.alloc(), BYTES, 1, 2, OF_BYTES));
    assert!(rt; reads_as(rt.alloc(), WORDS, 2, 1, OF_WORDS));
}

// Gives its bytes, and then fails.
#[derive(Drop)]
struct Failing<'a> {
    bytes: &'a [u8],
}

impl Read for Failing<'_> {
    fn read(&mut self, buf: &mut [u8]) -> io::Result<usize> {
        if self.bytes.is_empty() {
            return Err(io::Error::from(ErrorKind::TimedOut));
        }
        self.bytes.read(buf)
    }
}

// Whether the error of a read after so many bytes is the answer.
fn fails_after(alloc: Global, count: usize) -> bool {
    let mut input = Failing {
        bytes: &WORDS[..count.min(25)],
    };
    match read_ppm(alloc, &mut input) {
        Err(PixmapError::Input(error)) => error.kind() == ErrorKind::TimedOut,
        _ => false,
    }
}

#[test]
fn a_read_that_fails_is_reported_wherever_it_comes(rt: HostRuntime) {
    for count in [0, 7, 20, 25] {
        assert!(rt; fails_after(rt.alloc(), count));
    }
}

// Whether a file is read as its picture, or memory is wanting.
fn is_read_or_refused(alloc: Global, mut file: &[u8]) -> bool {
    match read_ppm(alloc, &mut file) {
        Ok(picture) => picture.places.as_slice() == OF_WORDS,
        Err(error) => matches!(error, PixmapError::NoMemory),
    }
}

#[test]
fn a_picture_that_is_refused_memory_is_reported(rt: HostRuntime) {
    assert!(rt; is_read_or_refused(rt.alloc(), WORDS));
}
