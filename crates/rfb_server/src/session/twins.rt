//! Sessions for which one update is composed: an update for the one is one for the other too.

ghost use Rattle.std.specs.Prelude.{◌≡◌, ◌<◌, ℕ, List, [], Some, true, slice_get};
ghost use Rattle.std.specs.Bool.{OnTrue};
ghost use Rattle.std.specs.Int.{div_ceil};
ghost use Rattle.rfb_pixel.specs.declared.colour.Colour.{Colour};
ghost use Rattle.rfb_picture.specs.Grid.{Grid, Holds};
ghost use Rattle.rfb_server.specs.declared.session.Session.{Session};
ghost use Rattle.rfb_picture.specs.Rect.{contains};
ghost use Rattle.rfb_picture.specs.Box.{is_in};
ghost use Rattle.rfb_picture.specs.Area.{asked_at};
ghost use Rattle.rfb_server.specs.Record.{AreKnown};
ghost use Rattle.rfb_server.specs.Hints.{hints_in};
ghost use Rattle.rfb_server.specs.Model.{notes_in};
ghost use Rattle.rfb_server.specs.Twins.{AreTwins, HasSentTwin};
ghost use Rattle.rfb_server.specs.KnownScreen.{Follows};
ghost use Rattle.rfb_server.specs.UpdateCall.{SendsUpdate};
ghost use Rattle.rfb_server.specs.update.Needs.{IsQuiet};
ghost use Rattle.rfb_server.specs.update.Sends.{IsKept, IsNext};
ghost use Rattle.rfb_server.specs.session.Twins.{Agree, AgreeIn, AsksAll, HasTakenOver, ShowsAll};
ghost use Rattle.rfb_server.specs.session.Twins.{IsKnownAlike, TakesSome};

use crate::cells::cell_at;
use crate::hint::Hint;
use crate::session::Session;
use crate::session::update::quiet::{Quiet, outside};
use rfb_picture::{Picture, Rect};
use rfb_pixel::Colour;

impl Session {
    /// Whether an update for `other` is one for this session too, to the byte, where both follow
    /// one screen. So it is where both viewers ask for all of it, whole or not, and have the same
    /// of it. Their format, their encodings and the kept hints are the same too, and `other` is
    /// between two messages. The answer may be no where they are twins.
    ///
    /// `knows_same` is whether the caller knows that both viewers are known to have the same of the
    /// screen. Where it does not, what they have is compared wherever something is marked, until
    /// something differs.
    pub fn is_twin_of(&self, other: &Session, knows_same: bool) -> bool
        requires same { knows_same ≡ true
            → (notes_in other.now).known ≡ (notes_in self.now).known }
        ensures { OnTrue result ((screen : Grid Colour) → Follows screen self.now
            → Follows screen other.now → AreTwins other.now self.now) }
    {
        if !self.is_ready() || !other.is_idle() {
            return false;
        }
        if !self.is_hinted_as(other) {
            return false;
        }
        if self.format != other.format || !self.encodings.is_as(&other.encodings) {
            return false;
        }
        self.asks_as(other) && self.agrees(other, knows_same)
    }

    /// Whether no cell has a place that is marked and asked, so that nothing needs sending. It is
    /// about costs: nothing rests on it.
    pub(crate) fn is_still(&self) -> bool {
        self.next_cell(0).is_none()
    }

    /// Whether so little may need sending, of two cells of 64 by 64 places at most, that it is
    /// composed sooner than twins are found. It is about costs: nothing rests on it.
    pub fn is_slight(&self) -> bool {
        let mut next = 0;
        for _ in 0..2 {
            let Some(index) = self.next_cell(next) else {
                return true;
            };
            next = index + 1;
        }
        self.next_cell(next).is_none()
    }

    /// Takes over the update that a twin of it was sent, which is its viewer's too: it knows what
    /// its viewer has then, as after an update of its own.
    pub fn take_over(&mut self, screen: &Picture<Colour>, sent: &Session)
        requires follows { Follows screen.now self.old }
        requires sent { HasSentTwin screen.now self.old sent.now }
        ensures follows { Follows screen.now self.new }
        ensures sends { (was : Session) (before after : List ℕ) → AreTwins was self.old
            → SendsUpdate screen.now was sent.now before after
            → SendsUpdate screen.now self.old self.new before after }
        ensures known { (notes_in self.new).known ≡ (notes_in sent.now).known }
        ensures spent { hints_in self.new ≡ [] }
    {
        self.take_shown(screen, sent);
    }

    // Whether both keep the same hints.
    fn is_hinted_as(&self, other: &Session) -> bool
        ensures { OnTrue result (self.now.hints.items ≡ other.now.hints.items) }
    {
        let count = self.hints.len();
        if count != other.hints.len() {
            return false;
        }
        for index in 0..count {
            let Some(hint) = self.hints.get(index) else {
                return false;
            };
            if !other.keeps_at(index, hint) {
                return false;
            }
        }
        true
    }

    // Whether the hint of that number is this.
    fn keeps_at(&self, index: usize, hint: &Hint) -> bool
        ensures { OnTrue result (slice_get self.now.hints.items index ≡ Some hint.now) }
    {
        match self.hints.get(index) {
            Some(kept) => kept == hint,
            None => false,
        }
    }

    // Whether both ask for all of a screen of one size, in the same way.
    fn asks_as(&self, other: &Session) -> bool
        ensures columns { OnTrue result (self.now.known.width ≡ other.now.known.width) }
        ensures rows { OnTrue result (self.now.known.height ≡ other.now.known.height) }
        ensures alike { OnTrue result (self.now.area ≡ other.now.area) }
        ensures all { OnTrue result ((x y : ℕ) → x < self.now.known.width
            → y < self.now.known.height → asked_at self.now.area x y ≡ true) }
    {
        if self.known.width() != other.known.width()
            || self.known.height() != other.known.height()
        {
            return false;
        }
        if self.asks_all(false) {
            return other.asks_all(false);
        }
        self.asks_all(true) && other.asks_all(true)
    }

    // Whether all of the screen is asked, all of it whole or none. Of one that is not asked whole
    // the area has noted that.
    fn asks_all(&self, whole: bool) -> bool
        ensures { OnTrue result (AsksAll whole self.now) }
    {
        if whole {
            return self.asks_whole();
        }
        if !self.area.asks_all() {
            return false;
        }
        self.area.is_plain()
    }

    // Whether all of the screen is asked whole.
    fn asks_whole(&self) -> bool
        ensures { OnTrue result (AsksAll true self.now) }
    {
        // Where it is noted that none is whole, no place has to be looked at.
        if self.area.is_plain() {
            return false;
        }
        let all = Rect::whole(self.known.width(), self.known.height());
        if !self.area.asked().has_all(all) {
            return false;
        }
        self.area.whole().has_all(all)
    }

    // Whether both know the same of all that may need sending. Where it is not known that they do,
    // they are to be marked alike too.
    fn agrees(&self, other: &Session, knows_same: bool) -> bool
        requires columns { self.now.known.width ≡ other.now.known.width }
        requires rows { self.now.known.height ≡ other.now.known.height }
        requires same { knows_same ≡ true → other.now.known ≡ self.now.known }
        ensures { OnTrue result (Agree self.now other.now) }
    {
        if knows_same {
            return true;
        }
        let width = self.known.width();
        let height = self.known.height();
        let mut next = 0;
        while let Some(index) = self.next_cell(next) {
            if !other.goes_on_at(next, index) {
                return false;
            }
            if !self.agrees_in(other, cell_at(width, height, index)) {
                return false;
            }
            next = index + 1;
        }
        other.next_cell(next).is_none()
    }

    // Whether that cell is the first from number `from` on that may have marked and asked places.
    fn goes_on_at(&self, from: usize, index: usize) -> bool
        ensures { OnTrue result (IsNext self.now from index) }
    {
        match self.next_cell(from) {
            Some(found) => found == index,
            None => false,
        }
    }

    // Whether both have the same bounds of marked places in the cell, and know the same within.
    fn agrees_in(&self, other: &Session, cell: Rect) -> bool
        requires held { Holds self.now.known cell }
        requires held_too { Holds other.now.known cell }
        ensures { OnTrue result (AgreeIn self.now other.now cell) }
    {
        match (self.marks.bounds_in(cell), other.marks.bounds_in(cell)) {
            (None, None) => true,
            (Some(here), Some(there)) => {
                here == there && self.known.has_same(&other.known, here)
            }
            _ => false,
        }
    }

    // Takes over what a viewer has that was sent all of the screen. Copies that the session has a
    // claim of are made here too, which moves rows and no places.
    fn take_shown(&mut self, screen: &Picture<Colour>, sent: &Session)
        requires about { Follows screen.now self.old }
        requires asked { (x y : ℕ) → x < self.old.known.width → y < self.old.known.height
            → asked_at self.old.area x y ≡ true }
        requires columns { sent.now.known.width ≡ self.old.known.width }
        requires rows { sent.now.known.height ≡ self.old.known.height }
        requires shown { ShowsAll screen.now self.old.format sent.now.known }
        ensures about { Follows screen.now self.new }
        ensures taken { HasTakenOver screen.now self.old self.new }
    {
        let claim = self.claim;
        self.claim = None;
        let quiet = self.follow_hints(screen, claim);
        self.take_others(screen, sent, &quiet);
    }

    // The same, but for places that need no sending.
    fn take_others(&mut self, screen: &Picture<Colour>, sent: &Session, quiet: &Quiet)
        requires about { Follows screen.now self.old }
        requires asked { (x y : ℕ) → x < self.old.known.width → y < self.old.known.height
            → asked_at self.old.area x y ≡ true }
        requires columns { sent.now.known.width ≡ self.old.known.width }
        requires rows { sent.now.known.height ≡ self.old.known.height }
        requires shown { ShowsAll screen.now self.old.format sent.now.known }
        requires quiet { IsQuiet screen.now self.old quiet.now }
        ensures about { Follows screen.now self.new }
        ensures taken { HasTakenOver screen.now self.old self.new }
    {
        let all = Rect::whole(self.known.width(), self.known.height());
        // Mostly few places are marked, and the first is not.
        let some = all.w > 0 && all.h > 0 && self.marks.has(0, 0);
        if some && quiet.area.h == 0 && self.marks.has_all(all) {
            self.take_whole(screen, sent);
        } else {
            self.take_cells(screen, sent, quiet);
        }
    }

    // The same by rows of the screen, which are longer than those of cells.
    fn take_whole(&mut self, screen: &Picture<Colour>, sent: &Session)
        requires about { Follows screen.now self.old }
        requires asked { (x y : ℕ) → x < self.old.known.width → y < self.old.known.height
            → asked_at self.old.area x y ≡ true }
        requires columns { sent.now.known.width ≡ self.old.known.width }
        requires rows { sent.now.known.height ≡ self.old.known.height }
        requires shown { ShowsAll screen.now self.old.format sent.now.known }
        ensures about { Follows screen.now self.new }
        ensures taken { HasTakenOver screen.now self.old self.new }
    {
        let all = Rect::whole(self.known.width(), self.known.height());
        self.take_cell(sent, all);
        self.settle();
        self.claim = None;
    }

    // The same cell by cell.
    fn take_cells(&mut self, screen: &Picture<Colour>, sent: &Session, quiet: &Quiet)
        requires about { Follows screen.now self.old }
        requires asked { (x y : ℕ) → x < self.old.known.width → y < self.old.known.height
            → asked_at self.old.area x y ≡ true }
        requires columns { sent.now.known.width ≡ self.old.known.width }
        requires rows { sent.now.known.height ≡ self.old.known.height }
        requires shown { ShowsAll screen.now self.old.format sent.now.known }
        requires quiet { IsQuiet screen.now self.old quiet.now }
        ensures about { Follows screen.now self.new }
        ensures taken { HasTakenOver screen.now self.old self.new }
    {
        let width = self.known.width();
        let height = self.known.height();
        let mut next = 0;
        while let Some(index) = self.next_cell(next) {
            let zone = outside(cell_at(width, height, index), quiet);
            self.take_cell(sent, zone);
            next = index + 1;
        }
        self.settle();
        self.claim = None;
    }

    // Takes over what the other's viewer has where the cell is marked.
    fn take_cell(&mut self, sent: &Session, cell: Rect)
        requires held { Holds self.old.known cell }
        requires columns { sent.now.known.width ≡ self.old.known.width }
        requires rows { sent.now.known.height ≡ self.old.known.height }
        requires known { AreKnown sent.now.known cell }
        ensures kept { IsKept self.old self.new }
        ensures width { self.new.known.width ≡ self.old.known.width }
        ensures height { self.new.known.height ≡ self.old.known.height }
        ensures marked { (x y : ℕ) → contains cell x y ≡ true → is_in self.old.marks x y ≡ true
            → IsKnownAlike self.new.known sent.now.known x y }
        ensures some { TakesSome sent.now.known self.old.known self.new.known }
    {
        if let Some(zone) = self.marks.bounds_in(cell) {
            self.known.take_from(&sent.known, zone);
        }
    }
}
