//! Bytes that arrive at an end of a link.

ghost use Rattle.std.specs.Prelude.{◌≡◌, ◌≢◌, ◌≤◌, ◌<◌, ◌⊎◌, ◌||◌, ℕ, length, drop};
ghost use Rattle.std.specs.Prelude.{true, false, Some, None, IfOk, OnOk, IsOk};
ghost use Rattle.rfb_viewer.specs.declared.fault.ViewerFault.TheVariants.{NoMemory as ViewerWants};
ghost use Rattle.rfb_server.specs.declared.fault.ServerFault.TheVariants.{NoMemory as ServerWants};
ghost use Rattle.rfb_server.specs.Told.{seen};
ghost use Rattle.rfb_session.specs.declared.event.Event.TheVariants.{ToServer, ToViewer};
ghost use Rattle.rfb_session.specs.LinkBytes.{IsSole, sole_told};

use crate::link::Link;
use crate::reply::{server_reply, viewer_reply};
use crate::told::{Delivery, NoMemory, Told};
use rfb_server::{ServerEvent, ServerFault};
use rfb_viewer::ViewerFault;

impl Link {
    ghost use Rattle.rfb_pixel.specs.declared.colour.Colour.{Colour};
    ghost use Rattle.rfb_picture.specs.Grid.{Grid};
    ghost use Rattle.rfb_server.specs.declared.fault.ServerFault.{ServerFault};
    ghost use Rattle.rfb_server.specs.KnownScreen.{Follows};
    ghost use Rattle.rfb_server.specs.Hints.{hints_in};
    ghost use Rattle.rfb_viewer.specs.declared.fault.ViewerFault.{ViewerFault};
    ghost use Rattle.rfb_session.specs.LinkModel.{Arrives, session_of_link};
    ghost use Rattle.rfb_session.specs.LinkModel.{server_fault_of, viewer_fault_of};
    ghost use Rattle.rfb_session.specs.LinkModel.{LosesToViewer, LosesToServer};
    ghost use Rattle.rfb_session.specs.LinkModel.{IsLostOn, FollowsStill};
    ghost use Rattle.rfb_session.specs.LinkBytes.{TellsSole, MovesNone};
    ghost use Rattle.rfb_session.specs.ends.LinkDelivery.{DeliversToViewer, DeliversToServer};
    ghost use Rattle.rfb_session.specs.ends.LinkDelivery.{HasHeard, EndsHearing};
    ghost use Rattle.rfb_session.specs.ends.LinkDelivery.{HasWatched, EndsWatching};
    ghost use Rattle.rfb_session.specs.ends.LinkDelivery.{IfSessionEnded, IfViewerEnded};

    /// Bytes reach the session, at most `count`, or all that are in flight to it. Its answers are
    /// in flight then. One that has failed takes them to no effect. Memory can be wanting for
    /// answers, and for a text that the session keeps.
    pub fn move_to_server(&mut self, count: u32) -> Result<Told, NoMemory>
        ensures arrives { IfOk result (λ told. Arrives self.old (ToServer count) told self.new) }
        ensures dropped { IsLostOn self.old (ToServer count) → IsOk result }
        ensures none { MovesNone self.old (ToServer count) → IsOk result }
        ensures follows { FollowsStill self.old self.new }
        ensures hints { hints_in (session_of_link self.new) ≡ hints_in (session_of_link self.old) }
    {
        let delivery = self.deliver_to_session(count)?;
        Ok(delivery.told)
    }

    /// The same, and says whether the client asked for the screen alone among the bytes.
    pub fn deliver_to_session(&mut self, count: u32) -> Result<Delivery, NoMemory>
        ensures arrives { IfOk result (λ delivery.
            Arrives self.old (ToServer count) delivery.told self.new) }
        ensures sole { IfOk result (λ delivery.
            TellsSole self.old delivery.told.moved delivery.sole self.new) }
        ensures failed { server_fault_of self.old ≢ None →
            IfOk result (λ delivery. delivery.sole ≡ false) }
        ensures dropped { IsLostOn self.old (ToServer count) → IsOk result }
        ensures none { MovesNone self.old (ToServer count) → IsOk result }
        ensures follows { FollowsStill self.old self.new }
        ensures hints { hints_in (session_of_link self.new) ≡ hints_in (session_of_link self.old) }
    {
        let moved = self.to_server.len().min(count as usize);
        let sole = self.deliver_to_server(moved)?;
        Ok(Delivery {
            told: Told::of_moved(moved as u32),
            sole,
        })
    }

    /// Bytes reach the viewer, at most `count`, or all that are in flight to it. Its answers are in
    /// flight then. One that has failed takes them to no effect. Memory can be wanting for answers,
    /// for the viewer's screen, and for a text that it keeps.
    pub fn move_to_viewer(&mut self, count: u32) -> Result<Told, NoMemory>
        ensures arrives { IfOk result (λ told. Arrives self.old (ToViewer count) told self.new) }
        ensures dropped { IsLostOn self.old (ToViewer count) → IsOk result }
        ensures none { MovesNone self.old (ToViewer count) → IsOk result }
        ensures session { session_of_link self.new ≡ session_of_link self.old }
    {
        let moved = self.to_viewer.len().min(count as usize);
        self.deliver_to_viewer(moved)?;
        Ok(Told::of_moved(moved as u32))
    }

    // `count` bytes reach the viewer, of those in flight to it.
    fn deliver_to_viewer(&mut self, count: usize) -> Result<(), NoMemory>
        requires { count ≤ length self.old.to_viewer }
        ensures reached { OnOk result
            (HasWatched self.old count self.new ⊎ EndsWatching self.old count self.new) }
        ensures delivered { OnOk result (DeliversToViewer self.old count self.new) }
        ensures lost { (fault : ViewerFault) → viewer_fault_of self.old ≡ Some fault →
            OnOk result (LosesToViewer self.old count self.new) }
        ensures dropped { IfViewerEnded self.old (IsOk result) }
        ensures none { count ≡ 0 → IsOk result }
        ensures session { session_of_link self.new ≡ session_of_link self.old }
    {
        let mut left = count;
        while left > 0 {
            left -= self.feed_viewer(left)?;
        }
        Ok(())
    }

    // Feeds the viewer what it takes at once of `count` bytes, and sends what it answers. One that
    // has failed takes them all, to no effect.
    fn feed_viewer(&mut self, count: usize) -> Result<usize, NoMemory>
        requires some { 0 < count }
        requires within { count ≤ length self.old.to_viewer }
        ensures used { IfOk result (λ used. (0 < used) × (used ≤ count)) }
        ensures left { IfOk result (λ used. self.new.to_viewer ≡ drop used self.old.to_viewer) }
        ensures reached { IfOk result (λ used. HasWatched self.old used self.new
            ⊎ ((used ≡ count) × EndsWatching self.old count self.new)) }
        ensures delivered { IfOk result (λ used. DeliversToViewer self.old used self.new) }
        ensures lost { (fault : ViewerFault) → viewer_fault_of self.old ≡ Some fault →
            IfOk result (λ used. LosesToViewer self.old used self.new) }
        ensures dropped { IfViewerEnded self.old (IsOk result) }
        ensures session { session_of_link self.new ≡ session_of_link self.old }
    {
        match self.viewer.feed(self.to_viewer.first(count)) {
            Ok(fed) => {
                self.to_server.send(viewer_reply(&fed.event))?;
                self.to_viewer.arrive(fed.used);
                Ok(fed.used)
            }
            Err(fault) => {
                if viewer_wants_memory(fault) {
                    return Err(NoMemory);
                }
                self.to_viewer.arrive(count);
                Ok(count)
            }
        }
    }

    // `count` bytes reach the session, of those in flight to it. Returns whether the client asked
    // for the screen alone among them.
    fn deliver_to_server(&mut self, count: usize) -> Result<bool, NoMemory>
        requires { count ≤ length self.old.to_server }
        ensures reached { IfOk result (λ sole.
            HasHeard self.old count sole self.new ⊎ EndsHearing self.old count sole self.new) }
        ensures delivered { OnOk result (DeliversToServer self.old count self.new) }
        ensures lost { (fault : ServerFault) → server_fault_of self.old ≡ Some fault →
            OnOk result (LosesToServer self.old count self.new) }
        ensures dropped { IfSessionEnded self.old (IsOk result) }
        ensures none { count ≡ 0 → IsOk result }
        ensures follows { FollowsStill self.old self.new }
        ensures hints { hints_in (session_of_link self.new) ≡ hints_in (session_of_link self.old) }
    {
        let mut left = count;
        let mut sole = false;
        while left > 0 {
            let (used, asked) = self.feed_server(left)?;
            left -= used;
            sole = either(sole, asked);
        }
        Ok(sole)
    }

    // Feeds the session what it takes at once of `count` bytes, and sends what it answers. One that
    // has failed takes them all, to no effect.
    fn feed_server(&mut self, count: usize) -> Result<(usize, bool), NoMemory>
        requires some { 0 < count }
        requires within { count ≤ length self.old.to_server }
        ensures used { IfOk result (λ fed. (0 < fed.0) × (fed.0 ≤ count)) }
        ensures left { IfOk result (λ fed. self.new.to_server ≡ drop fed.0 self.old.to_server) }
        ensures reached { IfOk result (λ fed. HasHeard self.old fed.0 fed.1 self.new
            ⊎ ((fed.0 ≡ count) × EndsHearing self.old count fed.1 self.new)) }
        ensures delivered { IfOk result (λ fed. DeliversToServer self.old fed.0 self.new) }
        ensures lost { (fault : ServerFault) → server_fault_of self.old ≡ Some fault →
            IfOk result (λ fed. LosesToServer self.old fed.0 self.new) }
        ensures dropped { IfSessionEnded self.old (IsOk result) }
        ensures follows { FollowsStill self.old self.new }
        ensures hints { hints_in (session_of_link self.new) ≡ hints_in (session_of_link self.old) }
    {
        match self.session.feed(self.to_server.first(count)) {
            Ok(fed) => {
                self.to_viewer.send(server_reply(&fed.event))?;
                self.to_server.arrive(fed.used);
                Ok((fed.used, asks_sole(&fed.event)))
            }
            Err(fault) => {
                if server_wants_memory(fault) {
                    return Err(NoMemory);
                }
                self.to_server.arrive(count);
                Ok((count, false))
            }
        }
    }
}

// Whether one of the two is so.
fn either(one: bool, other: bool) -> bool
    ensures { result ≡ (one || other) }
{
    one || other
}

/// Whether a session reports by this that its client asks for the screen alone: its ClientInit has
/// shared-flag 0.
pub(crate) fn asks_sole(event: &Option<ServerEvent>) -> bool
    ensures { IsSole result (sole_told (seen event.now)) }
{
    matches!(event, Some(ServerEvent::Ready { shared: false, .. }))
}

// Whether it is want of memory that the viewer has failed with.
fn viewer_wants_memory(fault: ViewerFault) -> bool
    ensures wants { result ≡ true → fault ≡ ViewerWants }
    ensures other { result ≡ false → fault ≢ ViewerWants }
{
    matches!(fault, ViewerFault::NoMemory)
}

// Whether it is want of memory that the server has failed with.
fn server_wants_memory(fault: ServerFault) -> bool
    ensures wants { result ≡ true → fault ≡ ServerWants }
    ensures other { result ≡ false → fault ≢ ServerWants }
{
    matches!(fault, ServerFault::NoMemory)
}
