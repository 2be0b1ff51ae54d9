//! Eight slots, in which whoever has a session that follows a screen may sit.

ghost use Rattle.std.specs.Prelude.{◌≡◌, ◌<◌, ℕ, ◌&&◌, length, nat_eq, not, None, Some, All, true};
ghost use Rattle.std.specs.Prelude.{false, IfSome, option_copied};
ghost use Rattle.std.specs.Option.{ForSome};
ghost use Rattle.rfb_picture.specs.declared.rect.Rect.{Rect};
ghost use Rattle.rfb_picture.specs.Places.{has_bit};
ghost use Rattle.rfb_server.specs.Strokes.{area_told};
ghost use Rattle.rfb_server.specs.declared.drawing.notice.Notice.{Notice};
ghost use Rattle.rfb_session.specs.Slots.{seat_at, is_taken, OnSlot};

use rfb_server::Notice;

/// How many slots there are.
pub const SLOTS: usize = 8;

/// Who sits in a slot: its session is notified of drawings.
pub(crate) trait Follower {
    // Whether its session is about the places of a rectangle.
    ghost Notifiable: { Rect → Self → Type 0 };

    // What becomes of it where its session is notified.
    ghost Notified: { Notice → Self → Self → Type 0 };

    /// Its session is told of a drawing.
    fn notified(&mut self, notice: &Notice)
        requires held { Notifiable (area_told notice.now) self.old }
        ensures notified { Notified notice.now self.old self.new };
}

// Every session is told of a drawing.
pub(crate) fn notify_all<F: Follower>(slots: &mut [Option<F>; SLOTS], notice: &Notice)
    requires held { All (λ slot. ForSome slot (λ seat. F.Notifiable (area_told notice.now) seat))
        slots.old }
    ensures size { length slots.new ≡ length slots.old }
    ensures notified { (k : ℕ) →
        OnSlot (λ a b. F.Notified notice.now a b) (seat_at k slots.old) (seat_at k slots.new) }
{
    for slot in slots.iter_mut() {
        if let Some(seat) = slot {
            seat.notified(notice);
        }
    }
}

// Every slot but one is emptied. Bit k of what it gives is set where slot k was taken.
pub(crate) fn empty_others<T: Drop>(slots: &mut [Option<T>; SLOTS], own: usize) -> u8
    ensures size { length slots.new ≡ length slots.old }
    ensures own { seat_at own slots.new ≡ seat_at own slots.old }
    ensures others { (k : ℕ) → nat_eq k own ≡ false → seat_at k slots.new ≡ None }
    ensures ended { (k : ℕ) → has_bit result k
        ≡ (not (nat_eq k own) && is_taken (seat_at k slots.old)) }
{
    let mut ended = 0;
    for (k, slot) in slots.iter_mut().enumerate() {
        ended |= end(slot, k, own);
    }
    ended
}

// Slot k is emptied, if it is not that one. Bit k of what it gives is set where it was taken.
fn end<T: Drop>(slot: &mut Option<T>, k: usize, own: usize) -> u8
    requires { k < 8 }
    ensures own { k ≡ own → slot.new ≡ slot.old }
    ensures emptied { nat_eq k own ≡ false → slot.new ≡ None }
    ensures bit { (j : ℕ) → has_bit result j
        ≡ (nat_eq j k && (not (nat_eq k own) && is_taken slot.old)) }
{
    if k == own {
        return 0;
    }
    if !empty(slot) {
        return 0;
    }
    1 << k
}

// The first slot that is empty, if one is.
pub(crate) fn first_empty<T>(slots: &[Option<T>; SLOTS]) -> Option<usize>
    ensures found { IfSome result (λ k. (k < 8) × (seat_at k slots.now ≡ None)) }
    ensures first { IfSome result (λ k. (j : ℕ) → j < k → is_taken (seat_at j slots.now) ≡ true) }
    ensures full { result ≡ None → (j : ℕ) → j < 8 → is_taken (seat_at j slots.now) ≡ true }
{
    for k in 0..SLOTS {
        if !taken(slots, k) {
            return Some(k);
        }
    }
    None
}

// Who sits in a slot, where there is such a slot and it is taken.
pub(crate) fn seat_of<T>(slots: &[Option<T>; SLOTS], slot: u8) -> Option<&T>
    ensures { option_copied result ≡ seat_at slot slots.now }
{
    let place = slot as usize;
    if place >= SLOTS {
        return None;
    }
    slots[place].as_ref()
}

// Whether a slot is taken.
pub(crate) fn taken<T>(slots: &[Option<T>; SLOTS], place: usize) -> bool
    requires { place < 8 }
    ensures { result ≡ is_taken (seat_at place slots.now) }
{
    slots[place].is_some()
}

// The slot, which is empty, is taken. It is generic: the value that an assignment drops is proved
// field by field where the type is known, and that takes long for a seat.
pub(crate) fn seat_in<T: Drop>(slot: &mut Option<T>, seat: T)
    ensures { slot.new ≡ Some seat }
{
    *slot = Some(seat);
}

// The slot is emptied. Returns whether it was taken.
pub(crate) fn empty<T: Drop>(slot: &mut Option<T>) -> bool
    ensures empty { slot.new ≡ None }
    ensures taken { result ≡ is_taken slot.old }
{
    slot.take().is_some()
}

// Another takes its place. It is generic: the value that an assignment drops is proved field by
// field where the type is known.
pub(crate) fn put<T: Drop>(place: &mut T, other: T)
    ensures { place.new ≡ other }
{
    *place = other;
}
