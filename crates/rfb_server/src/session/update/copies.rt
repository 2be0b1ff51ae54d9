//! Rectangles that the viewer is sent as copies, by the hints of the screen's owner.

ghost use Rattle.std.specs.Prelude.{◌≡◌, ◌+◌, ◌*◌, ◌≤◌, slice_get, Some, None, vec_len};
ghost use Rattle.rfb_server.specs.Claims.{IsClaimed};
ghost use Rattle.std.specs.Option.{ForSome};
ghost use Rattle.std.specs.Vec.{vec_capacity};
ghost use Rattle.rfb_server.specs.update.Needs.{IsQuiet};
ghost use Rattle.rfb_server.specs.KnownScreen.{Follows};
ghost use Rattle.rfb_server.specs.session.Sessions.{IsSame};
ghost use Rattle.rfb_server.specs.update.Sends.{IsKept};
ghost use Rattle.rfb_server.specs.update.Copies.{SendsHint, FollowsHint, IsUseful};
ghost use Rattle.rfb_server.specs.update.Copies.{KeepsMarks, IsMarkedFor, AreMarkedFor};
ghost use Rattle.rfb_server.specs.update.Copies.{AppendsCopies, usable_hints};
ghost use Rattle.rfb_server.specs.declared.hint.Hint.{Hint};

use crate::claim::{Claim, led_on};
use crate::hint::Hint;
use crate::rectangle::append_copy;
use crate::session::Session;
use crate::session::update::quiet::{NOWHERE, Quiet};
use rfb_picture::Picture;
use rfb_pixel::Colour;
use rfb_wire::Encoding;

impl Session {
    /// How many of the hints may be used: all, where the viewer listed CopyRect.
    pub(crate) fn usable_hints(&self) -> usize
        ensures value { result ≡ usable_hints self.now }
        ensures few { result ≤ 16 }
    {
        if !self.encodings.has(Encoding::CopyRect) {
            return 0;
        }
        self.hints.len()
    }

    /// Marks where the viewer may be sent a copy, since its picture changes there. That may mark a
    /// place that the viewer has already, and costs a look at it.
    pub(crate) fn mark_hints(&mut self, screen: &Picture<Colour>)
        requires { Follows screen.now self.old }
        ensures about { Follows screen.now self.new }
        ensures same { IsSame self.old self.new }
        ensures hints { self.new.hints ≡ self.old.hints }
        ensures marked { AreMarkedFor screen.now self.new (usable_hints self.new) }
    {
        for index in 0..self.usable_hints() {
            self.mark_hint(screen, index);
        }
    }

    // Marks it for the hint of that number.
    fn mark_hint(&mut self, screen: &Picture<Colour>, index: usize)
        requires { Follows screen.now self.old }
        ensures about { Follows screen.now self.new }
        ensures same { IsSame self.old self.new }
        ensures hints { self.new.hints ≡ self.old.hints }
        ensures more { KeepsMarks self.old self.new }
        ensures marked { (hint : Hint) → slice_get self.old.hints.items index ≡ Some hint →
            IsMarkedFor screen.now self.new hint }
    {
        if let Some(hint) = self.hints.get(index) {
            let to = hint.to;
            if screen.holds(to) {
                self.mark(to);
            }
        }
    }

    /// Appends a CopyRect for each hint that is of use, the oldest first. Returns how many it
    /// appended. There is room for them. `claim` is what it claimed of the screen. `quiet` becomes
    /// places that need no sending, as the last copies leave them.
    pub(crate) fn send_copies(
        &mut self,
        screen: &Picture<Colour>,
        mut claim: Option<Claim>,
        out: &mut Vec<u8>,
        quiet: &mut Quiet,
    ) -> u16
        requires about { Follows screen.now self.old }
        requires unclaimed { self.old.claim ≡ None }
        requires claimed { IsClaimed screen.now self.old.known self.old.format claim }
        requires quiet { IsQuiet screen.now self.old quiet.old }
        requires room { vec_len out.old + 16 * usable_hints self.old ≤ vec_capacity out.old }
        requires marked { AreMarkedFor screen.now self.old (usable_hints self.old) }
        ensures kept { IsKept self.old self.new }
        ensures about { Follows screen.now self.new }
        ensures sent { AppendsCopies screen.now (usable_hints self.old) self.old self.new
            out.old.items out.new.items result }
        ensures quiet { IsQuiet screen.now self.new quiet.new }
        ensures few { result ≤ 16 }
        ensures len { vec_len out.new ≤ vec_len out.old + 16 * usable_hints self.old }
        ensures room { vec_capacity out.new ≡ vec_capacity out.old }
    {
        let mut count = 0;
        let mut useless = None;
        for index in 0..self.usable_hints() {
            let Some(hint) = self.hints.get(index) else {
                unreachable!()
            };
            let hint = *hint;
            let sent = self.send_copy(screen, hint, claim, useless, out, quiet);
            if sent {
                // It spoke of the record, which has changed.
                claim = led_on(claim, hint);
            }
            useless = if sent { None } else { Some(hint) };
            count += u16::from(sent);
        }
        count
    }

    // Appends the CopyRect of a hint, if that is of use. There is room for it. One that is known to
    // be of no use is not judged again.
    fn send_copy(
        &mut self,
        screen: &Picture<Colour>,
        hint: Hint,
        claim: Option<Claim>,
        useless: Option<Hint>,
        out: &mut Vec<u8>,
        quiet: &mut Quiet,
    ) -> bool
        requires about { Follows screen.now self.old }
        requires unclaimed { self.old.claim ≡ None }
        requires claimed { IsClaimed screen.now self.old.known self.old.format claim }
        requires useless { ForSome useless (λ known. IsUseful screen.now self.old known → ⊥) }
        requires quiet { IsQuiet screen.now self.old quiet.old }
        requires room { vec_len out.old + 16 ≤ vec_capacity out.old }
        ensures kept { IsKept self.old self.new }
        ensures about { Follows screen.now self.new }
        ensures sent { SendsHint result screen.now hint self.old self.new
            out.old.items out.new.items }
        ensures quiet { IsQuiet screen.now self.new quiet.new }
        ensures len { vec_len out.new ≤ vec_len out.old + 16 }
        ensures room { vec_capacity out.new ≡ vec_capacity out.old }
    {
        if useless == Some(hint) || !self.follow_hint(screen, hint, claim, quiet) {
            return false;
        }
        append_copy(hint.to, hint.sx, hint.sy, out);
        true
    }

    // Records what the viewer has by the copy of a hint, if that is of use.
    fn follow_hint(
        &mut self,
        screen: &Picture<Colour>,
        hint: Hint,
        claim: Option<Claim>,
        quiet: &mut Quiet,
    ) -> bool
        requires about { Follows screen.now self.old }
        requires unclaimed { self.old.claim ≡ None }
        requires claimed { IsClaimed screen.now self.old.known self.old.format claim }
        requires quiet { IsQuiet screen.now self.old quiet.old }
        ensures kept { IsKept self.old self.new }
        ensures about { Follows screen.now self.new }
        ensures followed { FollowsHint result screen.now hint self.old self.new }
        ensures quiet { IsQuiet screen.now self.new quiet.new }
    {
        let judged = self.judge(screen, hint, claim);
        if judged.gain {
            self.known.copy(hint.to, hint.sx, hint.sy);
            *quiet = judged.right;
        } else if judged.right.area.h > 0 {
            *quiet = judged.right;
        }
        judged.gain
    }

    /// Records what the viewer has by copies of its hints, where they are useful and the claim is
    /// of them. Others are not looked at. Returns places that need no sending after that.
    pub(crate) fn follow_hints(
        &mut self,
        screen: &Picture<Colour>,
        mut claim: Option<Claim>,
    ) -> Quiet
        requires about { Follows screen.now self.old }
        requires unclaimed { self.old.claim ≡ None }
        requires claimed { IsClaimed screen.now self.old.known self.old.format claim }
        ensures kept { IsKept self.old self.new }
        ensures about { Follows screen.now self.new }
        ensures quiet { IsQuiet screen.now self.new result }
    {
        let mut quiet = NOWHERE;
        for index in 0..self.usable_hints() {
            let Some(hint) = self.hints.get(index) else {
                unreachable!()
            };
            let hint = *hint;
            claim = self.follow_claimed(screen, hint, claim, &mut quiet);
        }
        quiet
    }

    // The same of one hint, and what is claimed then.
    fn follow_claimed(
        &mut self,
        screen: &Picture<Colour>,
        hint: Hint,
        claim: Option<Claim>,
        quiet: &mut Quiet,
    ) -> Option<Claim>
        requires about { Follows screen.now self.old }
        requires unclaimed { self.old.claim ≡ None }
        requires claimed { IsClaimed screen.now self.old.known self.old.format claim }
        requires quiet { IsQuiet screen.now self.old quiet.old }
        ensures kept { IsKept self.old self.new }
        ensures about { Follows screen.now self.new }
        ensures claimed { IsClaimed screen.now self.new.known self.new.format result }
        ensures quiet { IsQuiet screen.now self.new quiet.new }
    {
        if !is_of(claim, hint) {
            return claim;
        }
        if self.follow_hint(screen, hint, claim, quiet) {
            return led_on(claim, hint);
        }
        claim
    }
}

// Whether there is a claim, of that copy.
fn is_of(claim: Option<Claim>, hint: Hint) -> bool {
    match claim {
        Some(claim) => claim.is_of(hint),
        None => false,
    }
}
