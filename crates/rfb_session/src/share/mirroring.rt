//! A share of the picture that a viewer of a server has.

ghost use Rattle.std.specs.Prelude.{◌≡◌, ◌↔◌, ◌<◌, ◌≤◌, ℕ, length, true, false, All, None, Some};
ghost use Rattle.std.specs.Prelude.{Err, IfOk, IfErr, IfSome, OnOk, OnErr, IsErr, IsTrue};
ghost use Rattle.std.specs.Prelude.{option_copied};
ghost use Rattle.rfb_session.specs.Mirrors.{seen_by, IsAsked, StandsOrFailed};
ghost use Rattle.std.specs.Option.{ForSome};
ghost use Rattle.rfb_codec.specs.Effect.{IsAlike};
ghost use Rattle.rfb_hello.specs.declared.version.Version.TheVariants.{V38};
ghost use Rattle.rfb_session.specs.Slots.{seat_at, OnSlot};
ghost use Rattle.rfb_picture.specs.Grid.{IsGrid};
ghost use Rattle.rfb_picture.specs.Places.{has_bit};
ghost use Rattle.rfb_server.specs.Model.{notes_in};
ghost use Rattle.rfb_session.specs.ShareMoves.{IsRelayed};
ghost use Rattle.rfb_viewer.specs.declared.fault.AppendFault.TheVariants.{Refused};
ghost use Rattle.rfb_session.specs.ShareSeats.{session_at};
ghost use Rattle.rfb_viewer.specs.Damage.{damage_of};
ghost use Rattle.rfb_viewer.specs.Model.{picture_of};
ghost use Rattle.rfb_viewer.specs.Moved.{moved_of};
ghost use Rattle.rfb_viewer.specs.declared.fault.CallFault.TheVariants.{NotReady};

mod telling;

use crate::hub::name_of;
use crate::seats::Seats;
use crate::share::Share;
use crate::share::kin::Kin;
use crate::share::mirror::Mirror;
use crate::share::screen::Screen;
use crate::share::seat::ShareSeat;
use crate::slots::{SLOTS, put};
use rfb_hello::{Fed, Version};
use rfb_picture::Picture;
use rfb_pixel::Colour;
use rfb_viewer::{AppendFault, Call, CallFault, Viewer, ViewerEvent, ViewerFault};
use std::alloc::Global;
use telling::{tell_all, tell_whole};

impl Share {
    ghost use Rattle.rfb_server.specs.Model.{serving_with};
    ghost use Rattle.rfb_session.specs.Share.{IsEmptyShare, serving_in, screen_of, viewer_of};
    ghost use Rattle.rfb_session.specs.ShareMirrors.{FeedsOn, FailsOn, MakesOn, ShowsOther};
    ghost use Rattle.rfb_session.specs.ShareMirrors.{IsShowable, IsShownInstead};
    ghost use Rattle.rfb_viewer.specs.Call.{text_in};

    /// A share of the picture that a viewer has, with eight empty seats. Each session offers
    /// versions up to 3.8, names the screen, and keeps at most `text_limit` bytes of each text that
    /// its viewer cuts. The viewer is the share's from here on. It is given back where it has no
    /// picture, or one of more than 4,096 columns or rows. It has to have failed, or to stand for
    /// what its server's bytes led to: a viewer that was made and fed does.
    pub fn of_viewer(
        alloc: Global,
        viewer: Viewer,
        name: &[u8],
        text_limit: u32,
    ) -> Result<Share, Viewer>
        requires name { length name.now ≤ 255 }
        requires stands { ∥ StandsOrFailed viewer ∥₁ }
        ensures empty { IfOk result IsEmptyShare }
        ensures viewer { IfOk result (λ share. viewer_of share ≡ Some viewer) }
        ensures screen { IfOk result (λ share. picture_of viewer ≡ Some (screen_of share)) }
        ensures made { IfOk result (λ share. serving_in share
            ≡ serving_with V38 (screen_of share).width (screen_of share).height
            name.now text_limit) }
        ensures refused { IsErr result ↔ (IsShowable (picture_of viewer) → ⊥) }
        ensures back { IfErr result (λ same. same ≡ viewer) }
    {
        let mirror = Mirror::of(viewer)?;
        let picture = mirror.picture();
        if picture.width() > SIDE || picture.height() > SIDE {
            return Err(mirror.into_viewer());
        }
        Ok(Share {
            alloc,
            screen: Screen::Seen(mirror),
            name: name_of(name),
            offer: Version::V38,
            text_limit,
            seats: [None, None, None, None, None, None, None, None],
            stirred: Seats::none(),
            kin: Kin::none(),
        })
    }

    /// The viewer whose picture is the screen, if there is one.
    pub fn viewer(&self) -> Option<&Viewer>
        ensures { option_copied result ≡ viewer_of self.now }
    {
        match &self.screen {
            Screen::Drawn(_) => None,
            Screen::Seen(mirror) => Some(mirror.viewer()),
        }
    }

    /// The viewer takes bytes of its server's, as `Viewer::feed` does. Then each session is told
    /// where the picture changed, and of the copies that came, the oldest first, as hints. After a
    /// fault it is told of what came before that. So the viewer is asked for its damage and its
    /// copies. `None` where the owner draws the screen; then nothing changes. It adds no bytes to
    /// those that wait, and takes no memory beside what the viewer takes.
    pub fn feed(&mut self, bytes: &[u8]) -> Option<Result<Fed<ViewerEvent>, ViewerFault>>
        ensures none { result ≡ None ↔ viewer_of self.old ≡ None }
        ensures kept { result ≡ None → self.new ≡ self.old }
        ensures fed { IfSome result (λ told. IfOk told (λ fed.
            FeedsOn self.old bytes.now fed self.new)) }
        ensures refused { IfSome result (λ told. IfErr told (λ fault.
            FailsOn self.old bytes.now fault self.new)) }
    {
        let Screen::Seen(mirror) = &mut self.screen else {
            return None;
        };
        let fed = mirror.feed(bytes);
        let is_told = relay(mirror, &mut self.seats);
        self.stirred = stirred_by(is_told, self.stirred);
        Some(fed)
    }

    /// A call of the viewer's, as `Viewer::append` makes it: its message, for the server, is
    /// appended to the caller's buffer. `Refused(NotReady)` where the owner draws the screen; then
    /// nothing changes. The screen and the seats are as they were.
    pub fn append(&mut self, call: &Call<'_>, out: &mut Vec<u8>) -> Result<(), AppendFault>
        requires few { length (text_in call.now) ≤ 1048576 }
        ensures none { viewer_of self.old ≡ None → result ≡ Err (Refused NotReady) }
        ensures kept { viewer_of self.old ≡ None → out.new.items ≡ out.old.items }
        ensures same { viewer_of self.old ≡ None → self.new ≡ self.old }
        ensures makes { IfSome (viewer_of self.old) (λ viewer.
            MakesOn self.old viewer call.now out.old.items result out.new.items self.new) }
    {
        let Screen::Seen(mirror) = &mut self.screen else {
            return Err(AppendFault::Refused(CallFault::NotReady));
        };
        mirror.append(call, out)
    }

    /// The picture of another viewer takes the place of the one that is shown, and each session is
    /// told that all of it changed. A viewer that has no picture, or one of another size, is given
    /// back, and so is any where the owner draws the screen. Then nothing changes. The viewer that
    /// was shown is dropped.
    pub fn show(&mut self, viewer: Viewer) -> Result<(), Viewer>
        requires stands { ∥ StandsOrFailed viewer ∥₁ }
        ensures shown { OnOk result (ShowsOther self.old viewer self.new) }
        ensures refused { IsErr result ↔ (IsShownInstead self.old (picture_of viewer) → ⊥) }
        ensures back { IfErr result (λ same. same ≡ viewer) }
        ensures kept { OnErr result (self.new ≡ self.old) }
    {
        let Screen::Seen(shown) = &mut self.screen else {
            return Err(viewer);
        };
        let mirror = match Mirror::of(viewer) {
            Ok(mirror) => mirror,
            Err(viewer) => return Err(viewer),
        };
        if !is_alike(mirror.picture(), shown.picture()) {
            return Err(mirror.into_viewer());
        }
        tell_whole(&mut self.seats, mirror.picture());
        put(shown, mirror);
        self.stirred = Seats::all();
        Ok(())
    }
}

// How many columns and rows a picture that is shown has at most.
const SIDE: u16 = 4096;

// Whether two pictures have one size.
fn is_alike(one: &Picture<Colour>, other: &Picture<Colour>) -> bool
    ensures { IsTrue result ↔ IsAlike one.now other.now }
{
    one.width() == other.width() && one.height() == other.height()
}

// The seats that may have work after one more call: all, where each was told of a change.
fn stirred_by(is_told: bool, stirred: Seats) -> Seats
    ensures all { is_told ≡ true → (k : ℕ) → k < 8 → has_bit result k ≡ true }
    ensures same { is_told ≡ false → result ≡ stirred }
{
    if is_told { Seats::all() } else { stirred }
}

// Each session is told of what changed of the picture since the viewer was asked last. Returns
// whether anything did.
fn relay(mirror: &mut Mirror, slots: &mut [Option<ShareSeat>; SLOTS]) -> bool
    requires alike { All (λ slot. ForSome slot (λ seat.
        IsAlike (seen_by mirror.old.viewer) (notes_in (session_at seat)).known)) slots.old }
    ensures asked { IsAsked mirror.old.viewer mirror.new.viewer }
    ensures whole { IsGrid (seen_by mirror.new.viewer) }
    ensures size { length slots.new ≡ length slots.old }
    ensures none { result ≡ false → damage_of mirror.old.viewer ≡ None }
    ensures same { result ≡ false → (k : ℕ) → seat_at k slots.new ≡ seat_at k slots.old }
    ensures told { (k : ℕ) → OnSlot (λ a b. IsRelayed (seen_by mirror.new.viewer)
        (damage_of mirror.old.viewer) (moved_of mirror.old.viewer) a b)
        (seat_at k slots.old) (seat_at k slots.new) }
{
    let damage = mirror.damage();
    let moves = mirror.moved();
    let picture = mirror.picture();
    if damage.is_none() && moves.is_empty() {
        // The width is asked for what is known of each picture: it has a colour at each place.
        picture.width();
        return false;
    }
    tell_all(slots, picture, damage, moves.as_slice());
    true
}
