//! Numbers of the protocol with the names that people know them by.

use rfb_pixel::Format;
use std::fmt;

/// A security type, RFC 6143 sections 7.1.2 and 8.1. One of a list is a byte; that of 3.3 has four.
#[derive(Clone, Copy)]
pub struct SecurityType(pub u32);

// The names of the first ones, and of those from 16 on.
const FIRST: [&str; 3] = ["Invalid", "None", "VNC Authentication"];

const LATER: [&str; 5] = ["Tight", "Ultra", "TLS", "VeNCrypt", "GTK-VNC SASL"];

impl fmt::Display for SecurityType {
    fn fmt<F: fmt::Write>(&self, f: &mut fmt::Formatter<F>) -> fmt::Result {
        let number = self.0;
        let name = match number.checked_sub(16) {
            Some(later) => LATER.get(later as usize),
            None => FIRST.get(number as usize),
        };
        match name {
            Some(name) => write!(f, "{number} ({name})"),
            None => write!(f, "{number}"),
        }
    }
}

/// An encoding, sections 7.7 and 8.4.
#[derive(Clone, Copy)]
pub struct EncodingNumber(pub i32);

impl fmt::Display for EncodingNumber {
    fn fmt<F: fmt::Write>(&self, f: &mut fmt::Formatter<F>) -> fmt::Result {
        let name = match self.0 {
            4 => "CoRRE",
            6 => "zlib",
            7 => "Tight",
            8 => "zlibhex",
            15 => "TRLE",
            16 => "ZRLE",
            -223 => "DesktopSize",
            -239 => "Cursor",
            _ => return write!(f, "{}", self.0),
        };
        write!(f, "{} ({name})", self.0)
    }
}

/// A format that a viewer asks for, by the name that it has among the words of commands.
#[derive(Clone, Copy)]
pub struct FormatName(pub Format);

impl fmt::Display for FormatName {
    fn fmt<F: fmt::Write>(&self, f: &mut fmt::Formatter<F>) -> fmt::Result {
        let name = if self.0 == Format::rgb565() {
            "rgb565"
        } else if self.0 == Format::bgr233() {
            "bgr233"
        } else if self.0 == Format::rgb101010() {
            "rgb101010"
        } else {
            "rgb888"
        };
        f.write_str(name)
    }
}
