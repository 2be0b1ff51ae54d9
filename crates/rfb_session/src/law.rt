//! Laws of a server and its viewer, with nothing to run.

ghost use Rattle.std.specs.Prelude.{◌≡◌, ℕ, ◌+◌, List, ◌++◌, length, Option, None, Some};
ghost use Rattle.rfb_pixel.specs.declared.colour.Colour.{Colour};
ghost use Rattle.rfb_pixel.specs.Format.{PixelFormat};
ghost use Rattle.rfb_picture.specs.Grid.{Grid};
ghost use Rattle.rfb_wire.specs.ClientMessage.{ClientMessage, SetPixelFormat, SpellsClientMessage};
ghost use Rattle.rfb_wire.specs.stream.Sequel.{Second};
ghost use Rattle.rfb_wire.specs.stream.End.{Takes, Refuses};
ghost use Rattle.rfb_codec.specs.UpdateStream.{UpdatePoint};
ghost use Rattle.rfb_server.specs.declared.fault.ServerFault.{ServerFault};
ghost use Rattle.rfb_server.specs.Server.{ServerState, server};
ghost use Rattle.rfb_server.specs.Told.{ServerTold};
ghost use Rattle.rfb_viewer.specs.declared.fault.ViewerFault.{ViewerFault};
ghost use Rattle.rfb_viewer.specs.Told.{ViewerTold};
ghost use Rattle.rfb_viewer.specs.Viewer.{ViewerState, viewer};
ghost use Rattle.rfb_viewer.specs.Calls.{format_refusal, formatted};
ghost use Rattle.rfb_session.specs.Link.{Ends, LinkState, server_of, first_link};
ghost use Rattle.rfb_session.specs.LinkSteps.{begun, calls, ComposesOn, MovesToViewer};
ghost use Rattle.rfb_session.specs.LinkSteps.{MovesToServer, flight_to_viewer, flight_to_server};
ghost use Rattle.rfb_session.specs.Headline.{IsHeadline, AnswersSome};
ghost use Rattle.rfb_session.specs.Network.{Network, Steps, IsReached};
ghost use Rattle.rfb_session.specs.Told.{Tells};
ghost use Rattle.rfb_session.specs.declared.event.Event.{Event};
ghost use Rattle.rfb_session.specs.declared.told.Refused.{Refused};
ghost use Rattle.rfb_session.specs.declared.told.Told.{Told};
ghost use Rattle.rfb_session.specs.InFlight.{AreMade, Flight, Flies, first_flight};
ghost use Rattle.rfb_session.specs.InFlight.{ReachesViewer, ReachesServer};

pub mod asking;
pub mod hops;
pub mod messages;
pub mod pictures;
pub mod seats;
pub mod shown;
pub mod streams;
pub mod viewers;

/// Whatever is drawn, asked, composed and delivered, in any number and order, refused calls among
/// it: once all that is in flight to the viewer has reached it,
///
/// - wherever it is known what it has, it shows that,
/// - over the area that the latest update answered it shows the screen as it was at that composing,
///   seen through the format of that update.
///
/// This holds of a fresh world, whatever was drawn on its screen.
pub fn what_is_due_is_the_screen()
    ensures fresh { (e : Ends) (screen : Grid Colour) →
        screen.width ≡ e.serving.hello.width → screen.height ≡ e.serving.hello.height →
        IsReached e (record { screen = screen; link = first_link e }) }
    ensures holds { (e : Ends) (network : Network) →
        IsReached e network → IsHeadline e network.link }
{}

/// An update that is composed is noted with a place that it answers. So what is said of the area of
/// the latest update is said of some place.
pub fn the_latest_update_answers_a_place()
    ensures { (screen : Grid Colour) (old new : LinkState) →
        ComposesOn screen old new → AnswersSome new.latest }
{}

/// An event that is reported as refused has changed nothing.
pub fn a_refused_event_changes_nothing()
    ensures { (e : Ends) (old new : Network) (event : Event) (told : Told) (refused : Refused) →
        Steps e old event new → Tells e old event told → told.refused ≡ Some refused → new ≡ old }
{}

/// Neither end refuses what is in flight to it, however it is split.
pub fn neither_end_refuses()
    ensures viewer { (e : Ends) (l : LinkState) (f : Flight) (bytes later : List ℕ)
        (fault : ViewerFault) → Flies e l f → f.viewer_gets ≡ bytes ++ later →
        Refuses (viewer e.viewing) l.viewer f.viewer_has bytes fault → ⊥ }
    ensures server { (e : Ends) (network : Network) (f : Flight) (bytes later : List ℕ)
        (fault : ServerFault) → Flies e network.link f → f.server_gets ≡ bytes ++ later →
        Refuses (server e.serving) (server_of network.screen network.link.session)
        f.server_has bytes fault → ⊥ }
{}

/// Bytes that reach an end move the link by as many. What is left in flight, with the answers that
/// the end gives, is again the bytes of the link's items.
pub fn bytes_that_reach_an_end_move_the_link()
    ensures viewer { (e : Ends) (network : Network) (f : Flight) (bytes later rest : List ℕ)
        (event : Option ViewerTold) (t : ViewerState) →
        AreMade e → IsReached e network → Flies e network.link f → f.viewer_gets ≡ bytes ++ later →
        Takes (viewer e.viewing) network.link.viewer f.viewer_has bytes event t rest →
        ReachesViewer e network.link f bytes later event t rest }
    ensures server { (e : Ends) (network : Network) (f : Flight) (bytes later rest : List ℕ)
        (event : Option ServerTold) (t : ServerState) →
        AreMade e → IsReached e network → Flies e network.link f → f.server_gets ≡ bytes ++ later →
        Takes (server e.serving) (server_of network.screen network.link.session)
        f.server_has bytes event t rest →
        ReachesServer e network.screen network.link f bytes later event t rest }
{}

/// What is sent joins the bytes in flight: the server's version at first, an update that is
/// composed, and the message of a call that is taken. Whether a format is refused is the same by
/// the bytes that came of an item and by the item.
pub fn what_is_sent_joins_the_bytes_in_flight()
    ensures first { (e : Ends) → Flies e (first_link e) (first_flight e) }
    ensures update { (e : Ends) (network : Network) (new : LinkState) (f : Flight) →
        IsReached e network → Flies e network.link f →
        (c : ComposesOn network.screen network.link new) →
        Flies e new (record f { viewer_gets = f.viewer_gets ++ c.bytes }) }
    ensures call { (e : Ends) (network : Network) (f : Flight) (p : UpdatePoint)
        (v : ViewerState) (message : ClientMessage) (bytes : List ℕ) →
        IsReached e network → network.link.viewer.point ≡ Second p →
        v.point ≡ network.link.viewer.point → Flies e network.link f →
        SpellsClientMessage message bytes →
        Flies e (calls None network.link v message)
        (record f { server_gets = f.server_gets ++ bytes }) }
    ensures format { (e : Ends) (network : Network) (f : Flight) (form : PixelFormat)
        (bytes : List ℕ) → IsReached e network → Flies e network.link f →
        format_refusal network.link.viewer f.viewer_has ≡ None →
        SpellsClientMessage (SetPixelFormat form) bytes →
        Flies e (calls None network.link (formatted form network.link.viewer) (SetPixelFormat form))
        (record f { server_gets = f.server_gets ++ bytes }) }
    ensures refusal { (e : Ends) (network : Network) (f : Flight) →
        IsReached e network → Flies e network.link f →
        format_refusal network.link.viewer f.viewer_has
        ≡ format_refusal network.link.viewer
        (begun network.link.at_viewer network.link.to_viewer) }
{}

/// As many bytes are in flight as the items have, but for those that have been moved; and a
/// delivery after a delivery is one of all their bytes.
pub fn deliveries_are_counted_in_bytes()
    ensures viewer { (e : Ends) (l : LinkState) (f : Flight) →
        Flies e l f → length f.viewer_gets ≡ flight_to_viewer e l }
    ensures server { (e : Ends) (l : LinkState) (f : Flight) →
        Flies e l f → length f.server_gets ≡ flight_to_server e l }
    ensures viewer_joins { (e : Ends) (a b c : LinkState) (n m : ℕ) →
        MovesToViewer e a n b → MovesToViewer e b m c → MovesToViewer e a (n + m) c }
    ensures server_joins { (e : Ends) (network : Network) (b c : LinkState) (n m : ℕ) →
        MovesToServer e network.screen network.link n b → MovesToServer e network.screen b m c →
        MovesToServer e network.screen network.link (n + m) c }
{}
