//! Laws of the handshakes, with nothing to run.

ghost use Rattle.std.specs.Prelude.{◌≡◌, ℕ, Bool, List, [], ◌∷◌, None, Some};
ghost use Rattle.arrayvec.specs.ArrayVec.{ArrayVec};
ghost use Rattle.rfb_wire.specs.stream.Grammar.{IsSpelled, IsGrammar, ReadsAll};
ghost use Rattle.rfb_wire.specs.stream.End.{IsMachine};
ghost use Rattle.rfb_hello.specs.declared.version.Version.{Version};
ghost use Rattle.rfb_hello.specs.declared.server_hello.ServerHello.{ServerHello};
ghost use Rattle.rfb_hello.specs.declared.viewer_hello.ViewerHello.{ViewerHello};
ghost use Rattle.rfb_hello.specs.declared.step.ServerStep.TheVariants.{Ready as ServerReady};
ghost use Rattle.rfb_hello.specs.declared.step.ViewerStep.TheVariants.{Screen, Ready};
ghost use Rattle.rfb_hello.specs.KeptText.{KeptText};
ghost use Rattle.rfb_hello.specs.Version.{lower, version_text};
ghost use Rattle.rfb_hello.specs.ClientHandshake.{ClientPoint, AwaitsVersion, AwaitsChoice};
ghost use Rattle.rfb_hello.specs.ClientHandshake.{AwaitsInit, Begun, ClientItem, ProtocolVersion};
ghost use Rattle.rfb_hello.specs.ClientHandshake.{SecurityType, ClientInit, client_item_says};
ghost use Rattle.rfb_hello.specs.ClientHandshake.{client_handshake, goes_on};
ghost use Rattle.rfb_hello.specs.ServerHandshake.{ServerPoint};
ghost use Rattle.rfb_hello.specs.ServerHandshake.{AwaitsVersion as AwaitsServerVersion};
ghost use Rattle.rfb_hello.specs.ServerHandshake.{AwaitsSecurity, AwaitsResult};
ghost use Rattle.rfb_hello.specs.ServerHandshake.{AwaitsInit as AwaitsServerInit};
ghost use Rattle.rfb_hello.specs.ServerHandshake.{Begun as ServerBegun, ServerItem};
ghost use Rattle.rfb_hello.specs.ServerHandshake.{ProtocolVersion as ServerVersion, SecurityNone};
ghost use Rattle.rfb_hello.specs.ServerHandshake.{SecurityTypes, SecurityResult, server_item_says};
ghost use Rattle.rfb_hello.specs.ServerHandshake.{goes_on as server_goes_on};
ghost use Rattle.rfb_hello.specs.ServerItems.{server_handshake};
ghost use Rattle.rfb_hello.specs.ServerEnd.{ServerSetup, server_tells, server_end, answer_bytes};
ghost use Rattle.rfb_hello.specs.ViewerEnd.{ViewerSetup, viewer_tells, viewer_end};
ghost use Rattle.rfb_hello.specs.ViewerAnswers.{choice_asked, reply_bytes};
ghost use Rattle.rfb_hello.specs.ServerAnswers.{types_asked, result_asked, init_asked, IsSetup};
ghost use Rattle.rfb_hello.specs.ServerModel.{StandsFor, fault_of, is_open};
ghost use Rattle.rfb_hello.specs.ViewerModel.{StandsFor as ViewerStandsFor};
ghost use Rattle.rfb_hello.specs.ViewerModel.{fault_of as viewer_fault_of};
ghost use Rattle.rfb_hello.specs.ViewerModel.{is_open as viewer_is_open};
ghost use Rattle.rfb_hello.specs.ToldOf.{IsReadyAt, IsScreenAt, IsViewerReadyAt};
ghost use Rattle.rfb_hello.specs.Conversation.{ByServer, Converse, conversation, version_used};

/// A client's handshake is read as RFC 6143 has it, whatever the server offers.
pub fn client_handshakes_are_spelled()
    ensures stream { (offer : Version)
        → IsSpelled (client_handshake offer) (client_item_says offer) }
    ensures laws { (offer : Version) → IsGrammar (client_handshake offer) }
{}

/// A server's handshake is read as RFC 6143 has it, up to whatever version the viewer goes and
/// however many places it admits.
pub fn server_handshakes_are_spelled()
    ensures stream { (limit : Version) (max_places : ℕ)
        → IsSpelled (server_handshake limit max_places) (server_item_says max_places) }
    ensures laws { (limit : Version) (max_places : ℕ)
        → IsGrammar (server_handshake limit max_places) }
{}

/// Both ends of a handshake are machines: their grammars have the laws of streams, and an item
/// brings each to the point after it.
pub fn both_ends_are_machines()
    ensures server { (setup : ServerSetup) → IsMachine (server_end setup) }
    ensures viewer { (setup : ViewerSetup) → IsMachine (viewer_end setup) }
{}

/// An end that stands for a point and a prefix has not failed, and it is open exactly where the
/// handshake goes on at that point.
pub fn ends_that_stand_have_not_failed()
    ensures server { (setup : ServerSetup) (hello : ServerHello) (point : ClientPoint)
        (prefix : List ℕ) → StandsFor setup hello point prefix
        → (fault_of hello ≡ None) × (is_open hello ≡ goes_on point) }
    ensures viewer { (setup : ViewerSetup) (hello : ViewerHello) (point : ServerPoint)
        (prefix : List ℕ) → ViewerStandsFor setup hello point prefix
        → (viewer_fault_of hello ≡ None) × (viewer_is_open hello ≡ server_goes_on point) }
{}

/// `Screen` and `Ready` come of one item each, whose size, version, flag and name they have. After
/// the item of `Ready` the handshake is done.
pub fn steps_are_of_their_items()
    ensures server { (setup : ServerSetup) (point : ClientPoint) (item : ClientItem)
        (reply : ArrayVec ℕ) (version : Version) (shared : Bool)
        → server_tells setup point item ≡ Some (ServerReady reply version shared)
        → IsReadyAt setup point item reply version shared }
    ensures screen { (setup : ViewerSetup) (point : ServerPoint) (item : ServerItem)
        (width height : ℕ)
        → viewer_tells setup point item ≡ Some (Screen width height)
        → IsScreenAt setup point item width height }
    ensures viewer { (setup : ViewerSetup) (point : ServerPoint) (item : ServerItem)
        (width height : ℕ) (version : Version) (name : KeptText) (name_length : ℕ)
        → viewer_tells setup point item ≡ Some (Ready width height version name name_length)
        → IsViewerReadyAt setup point item width height version name name_length }
{}

/// Two ends speak the whole handshake, whatever the server offers and the viewer's limit. Each
/// reads what the other says to its end, and both are then past it, with one version, one size and
/// one flag.
pub fn two_ends_speak_the_handshake()
    ensures { (server : ServerSetup) (viewer : ViewerSetup) → IsSetup viewer.max_places server
        → Converse server viewer AwaitsVersion AwaitsServerVersion
        (ByServer (version_text server.offer)) (conversation server viewer)
        (Begun (version_used server viewer) viewer.shared)
        (ServerBegun (version_used server viewer) server.width server.height) }
{}

/// The greeting and each answer of the server's end are the items that the handshake asks next, in
/// the server's own stream, with nothing after them.
pub fn server_answers_are_asked_next()
    ensures greeting { (offer limit : Version) (max_places : ℕ)
        → ReadsAll (server_handshake limit max_places) AwaitsServerVersion
        (version_text offer) (ServerVersion offer ∷ []) [] }
    ensures types { (setup : ServerSetup) (limit version : Version) (max_places : ℕ)
        → ReadsAll (server_handshake limit max_places) (AwaitsSecurity version)
        (answer_bytes (server_tells setup AwaitsVersion (ProtocolVersion version)))
        (types_asked version) [] }
    ensures result { (setup : ServerSetup) (limit version : Version) (max_places : ℕ)
        → ReadsAll (server_handshake limit max_places) (AwaitsResult version)
        (answer_bytes (server_tells setup (AwaitsChoice version) SecurityType))
        (result_asked version) [] }
    ensures init { (setup : ServerSetup) (limit version : Version) (max_places : ℕ)
        (shared : Bool) → IsSetup max_places setup
        → ReadsAll (server_handshake limit max_places) (AwaitsServerInit version)
        (answer_bytes (server_tells setup (AwaitsInit version) (ClientInit shared)))
        (init_asked setup) [] }
{}

/// Each answer of the viewer's end is the items that the handshake asks next, in the viewer's own
/// stream, with nothing after them; the version that it names is one that the server offered.
pub fn viewer_answers_are_asked_next()
    ensures version { (setup : ViewerSetup) (offer : Version)
        → ReadsAll (client_handshake offer) AwaitsVersion
        (reply_bytes (viewer_tells setup AwaitsServerVersion (ServerVersion offer)))
        (ProtocolVersion (lower setup.limit offer) ∷ []) [] }
    ensures none { (setup : ViewerSetup) (offer version : Version)
        → ReadsAll (client_handshake offer) (AwaitsInit version)
        (reply_bytes (viewer_tells setup (AwaitsSecurity version) SecurityNone))
        (ClientInit setup.shared ∷ []) [] }
    ensures types { (setup : ViewerSetup) (offer version : Version) (types : List ℕ)
        → ReadsAll (client_handshake offer) (AwaitsChoice version)
        (reply_bytes (viewer_tells setup (AwaitsSecurity version) (SecurityTypes types)))
        (choice_asked version setup.shared) [] }
    ensures result { (setup : ViewerSetup) (offer version : Version)
        → ReadsAll (client_handshake offer) (AwaitsInit version)
        (reply_bytes (viewer_tells setup (AwaitsResult version) SecurityResult))
        (ClientInit setup.shared ∷ []) [] }
{}
