//! What a session knows of its viewer's picture.

ghost use Rattle.std.specs.Prelude.{◌≡◌, None, IfOk};

mod sending;
mod taking;

use rfb_picture::{Area, Picture, Rect};
use std::alloc::{AllocError, Global};
use std::marker::Model;

/// For each place of a screen the pixel that the viewer has there, or will have once it has read
/// what was composed, in the session's format; or that this is not known. It keeps its size. It
/// owns 32 bits for each place, and two bits, with a few for each row and each cell.
#[derive(Debug, Drop)]
pub struct Record {
    pixels: Picture<u32>,
    known: Area,
}

impl Model for Record {
    ghost use Rattle.std.specs.Prelude.{ℕ, Option};
    ghost use Rattle.std.specs.Coded.{coded_ℕ, coded_option};
    ghost use Rattle.rfb_picture.specs.Grid.{Grid, grid_code};
    ghost use Rattle.rfb_server.specs.Record.{IsRecord, record_of};

    ghost Value = { Grid (Option ℕ) };

    ghost coded = { grid_code (coded_option coded_ℕ) };

    ghost view = { λ r. record_of r.pixels r.known.asked };

    ghost invariant = { λ r. IsRecord r.pixels r.known };
}

impl Record {
    ghost use Rattle.std.specs.Bool.{OnTrue, OnFalse};
    ghost use Rattle.rfb_picture.specs.Grid.{IsGrid, Holds, uniform};
    ghost use Rattle.rfb_server.specs.Record.{AreKnown, forgotten, ShowsKnown, TellsKnown};

    /// A record of a screen of `width` by `height` places, none of them known. It asks for room for
    /// all its places, in eight pieces. Where there is none it gives the error, and nothing is
    /// kept.
    pub(crate) fn new(alloc: Global, width: u16, height: u16) -> Result<Record, AllocError>
        ensures value { IfOk result (λ r. r ≡ uniform width height None) }
        ensures width { IfOk result (λ r. r.width ≡ width) }
        ensures height { IfOk result (λ r. r.height ≡ height) }
    {
        let pixels = Picture::new(alloc, width, height, 0)?;
        let known = Area::new(alloc, width, height)?;
        Ok(Record { pixels, known })
    }

    /// How many places a row has. Its contract also says that each place is known or not.
    #[inline]
    pub(crate) fn width(&self) -> u16
        ensures value { result ≡ self.now.width }
        ensures whole { IsGrid self.now }
    {
        self.pixels.width()
    }

    /// How many rows it has.
    #[inline]
    pub(crate) fn height(&self) -> u16
        ensures { result ≡ self.now.height }
    {
        self.pixels.height()
    }

    /// Whether each place of the rectangle is known.
    pub(crate) fn knows(&self, rect: Rect) -> bool
        requires { Holds self.now rect }
        ensures known { OnTrue result (AreKnown self.now rect) }
        ensures unknown { OnFalse result (AreKnown self.now rect → ⊥) }
    {
        if !self.known.asked().has_all(rect) {
            return false;
        }
        true
    }

    /// Lends a picture that has each known pixel at its place; elsewhere it says nothing.
    #[inline]
    pub(crate) fn pixels(&self) -> &Picture<u32>
        ensures value { ShowsKnown self.now result.now }
        ensures columns { result.now.width ≡ self.now.width }
        ensures rows { result.now.height ≡ self.now.height }
    {
        &self.pixels
    }

    /// Lends the set of the known places, as asked ones.
    #[inline]
    pub(crate) fn known(&self) -> &Area
        ensures value { TellsKnown self.now result.now }
        ensures columns { result.now.asked.width ≡ self.now.width }
        ensures rows { result.now.asked.height ≡ self.now.height }
    {
        &self.known
    }

    /// No place is known any more.
    pub(crate) fn forget(&mut self)
        ensures value { self.new ≡ forgotten self.old }
        ensures width { self.new.width ≡ self.old.width }
        ensures height { self.new.height ≡ self.old.height }
    {
        self.known.clear();
    }
}
