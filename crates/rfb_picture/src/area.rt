//! The part of a screen that a client asked for.

ghost use Rattle.std.specs.Prelude.{◌≡◌, ◌<◌, IfOk};
ghost use Rattle.rfb_picture.specs.Grid.{Holds};
ghost use Rattle.rfb_picture.specs.Box.{HasBox};
ghost use Rattle.std.specs.Bool.{OnTrue};
ghost use Rattle.rfb_picture.specs.Area.{IsArea, AsksEach, HasNoWhole};
ghost use Rattle.rfb_picture.specs.Area.{asked_at, whole_at, no_places, nothing, added};

use crate::place_set::PlaceSet;
use crate::rect::Rect;
use std::alloc::{AllocError, Global};
use std::marker::Model;

#[cfg(test)]
mod tests;

/// The places of a screen of that size that were asked for, RFC 6143 section 7.5.3, and those of
/// them that are to be sent whole: whatever the client has there. Only an asked place is whole. It
/// keeps its size; either may be 0. It owns two sets, `PlaceSet`: two bits for each place, a few
/// more for each row, and for each cell of 64 by 64 places two for each of its rows and a few more.
#[derive(Debug, Drop)]
pub struct Area {
    asked: PlaceSet,
    whole: PlaceSet,
    // Each place is asked. Where this is not set they may be, too.
    is_all: bool,
    // No place is whole. Where this is not set there may be none, too.
    is_plain: bool,
}

impl Model for Area {
    ghost use Rattle.rfb_picture.specs.Area.{Places, places_code, IsNoted};

    ghost Value = { Places };

    ghost coded = { places_code };

    ghost view = { λ a. record { asked = a.asked; whole = a.whole } };

    ghost invariant = { λ a.
        IsNoted (record { asked = a.asked; whole = a.whole }) a.is_all a.is_plain };
}

impl Area {
    /// An area of a screen of `width` by `height` places, none of them asked. It asks for room for
    /// all its bits, in eight pieces. Where there is none it gives the error, and nothing is kept.
    pub fn new(alloc: Global, width: u16, height: u16) -> Result<Area, AllocError>
        ensures value { IfOk result (λ a. a ≡ no_places width height) }
        ensures width { IfOk result (λ a. a.asked.width ≡ width) }
        ensures height { IfOk result (λ a. a.asked.height ≡ height) }
    {
        let asked = PlaceSet::new(alloc, width, height)?;
        let whole = PlaceSet::new(alloc, width, height)?;
        Ok(Area {
            asked,
            whole,
            is_all: false,
            is_plain: true,
        })
    }

    /// How many places a row of the screen has. Its contract also says that a place is whole only
    /// where it is asked.
    #[inline]
    pub fn width(&self) -> u16
        ensures value { result ≡ self.now.asked.width }
        ensures sound { IsArea self.now }
    {
        self.asked.width()
    }

    /// How many rows the screen has.
    #[inline]
    pub fn height(&self) -> u16
        ensures { result ≡ self.now.asked.height }
    {
        self.asked.height()
    }

    /// Lends the set of the asked places.
    #[inline]
    pub fn asked(&self) -> &PlaceSet
        ensures { result.now ≡ self.now.asked }
    {
        &self.asked
    }

    /// Lends the set of the whole places.
    #[inline]
    pub fn whole(&self) -> &PlaceSet
        ensures { result.now ≡ self.now.whole }
    {
        &self.whole
    }

    /// Whether a rectangle of all places was asked for since the last `clear`. It costs nothing; it
    /// may say no where each place is asked.
    #[inline]
    pub fn asks_all(&self) -> bool
        ensures { OnTrue result (AsksEach self.now) }
    {
        self.is_all
    }

    /// Whether nothing was asked for whole since the last `clear`. It costs nothing.
    #[inline]
    pub fn is_plain(&self) -> bool
        ensures { OnTrue result (HasNoWhole self.now) }
    {
        self.is_plain
    }

    /// Whether the place at column `x` of row `y` is asked.
    #[inline]
    pub fn is_asked(&self, x: u16, y: u16) -> bool
        requires column { x < self.now.asked.width }
        requires row { y < self.now.asked.height }
        ensures { result ≡ asked_at self.now x y }
    {
        self.asked.has(x, y)
    }

    /// Whether the place at column `x` of row `y` is whole.
    #[inline]
    pub fn is_whole(&self, x: u16, y: u16) -> bool
        requires column { x < self.now.asked.width }
        requires row { y < self.now.asked.height }
        ensures { result ≡ whole_at self.now x y }
    {
        self.whole.has(x, y)
    }

    /// The least rectangle that holds the asked places of the cell, which lies on the screen;
    /// `None` where no place of the cell is asked.
    pub fn bounds_in(&self, cell: Rect) -> Option<Rect>
        requires { Holds self.now.asked cell }
        ensures { HasBox (asked_at self.now) cell result }
    {
        self.asked.bounds_in(cell)
    }

    /// Asks for the places of the rectangle, which lies on the screen, and for them whole if
    /// `whole`. A place that is whole already stays whole.
    pub fn add(&mut self, rect: Rect, whole: bool)
        requires { Holds self.old.asked rect }
        ensures value { self.new ≡ added rect whole self.old }
        ensures width { self.new.asked.width ≡ self.old.asked.width }
        ensures height { self.new.asked.height ≡ self.old.asked.height }
    {
        let is_all = rect == Rect::whole(self.width(), self.height());
        self.asked.add(rect);
        self.is_all |= is_all;
        if whole {
            self.whole.add(rect);
            self.is_plain = false;
        }
    }

    /// No place is asked any more.
    pub fn clear(&mut self)
        ensures value { self.new ≡ nothing self.old }
        ensures width { self.new.asked.width ≡ self.old.asked.width }
        ensures height { self.new.asked.height ≡ self.old.asked.height }
    {
        self.asked.clear();
        if !self.is_plain {
            self.whole.clear();
        }
        self.is_all = false;
        self.is_plain = true;
    }

    /// Becomes a copy of `other`, which is of the same size and stays the caller's.
    pub fn copy_from(&mut self, other: &Area)
        requires width { self.old.asked.width ≡ other.now.asked.width }
        requires height { self.old.asked.height ≡ other.now.asked.height }
        ensures { self.new ≡ other.now }
    {
        self.asked.copy_from(&other.asked);
        self.whole.copy_from(&other.whole);
        self.is_all = other.is_all;
        self.is_plain = other.is_plain;
    }
}
