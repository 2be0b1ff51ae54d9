//! Laws of a server's stream and of a viewer's states, with nothing to run.

ghost use Rattle.std.specs.Prelude.{◌≡◌, ℕ, ◌<◌, ◌^◌, true, List, ◌∷◌, ◌++◌, length, map, None};
ghost use Rattle.std.specs.Prelude.{Some};
ghost use Rattle.std.specs.List.{All};
ghost use Rattle.rfb_pixel.specs.Format.{PixelFormat, IsFormat};
ghost use Rattle.rfb_picture.specs.declared.rect.Rect.{Rect};
ghost use Rattle.rfb_picture.specs.Rect.{contains};
ghost use Rattle.rfb_wire.specs.declared.encoding.Encoding.{Encoding};
ghost use Rattle.rfb_wire.specs.Encoding.{number_of};
ghost use Rattle.rfb_wire.specs.stream.Grammar.{IsSpelled, IsGrammar};
ghost use Rattle.rfb_wire.specs.stream.End.{IsMachine};
ghost use Rattle.rfb_wire.specs.ClientMessage.{SpellsFormatMessage, SpellsEncodingsMessage};
ghost use Rattle.rfb_hello.specs.ViewerEnd.{ViewerSetup};
ghost use Rattle.rfb_viewer.specs.ServerBytes.{server_bytes, server_bytes_say};
ghost use Rattle.rfb_viewer.specs.Viewer.{Viewing, ViewerState, viewer};
ghost use Rattle.rfb_viewer.specs.declared.viewer.Viewer.{Viewer};
ghost use Rattle.rfb_viewer.specs.Damage.{damaging, joined_all, rect_of_damage, holds, IsWithin};
ghost use Rattle.rfb_viewer.specs.Moved.{moving};
ghost use Rattle.rfb_viewer.specs.Model.{StandsFor, fault_of};
ghost use Rattle.rfb_viewer.specs.Messages.{format_message, encodings_message};

/// All that a server sends is read as RFC 6143 has it, its handshake and then its messages and
/// rectangles, whatever format and setup the viewer has.
pub fn server_bytes_are_spelled()
    ensures stream { (form : PixelFormat) (setup : ViewerSetup)
        → IsSpelled (server_bytes form setup) (server_bytes_say form setup) }
    ensures laws { (form : PixelFormat) (setup : ViewerSetup)
        → IsGrammar (server_bytes form setup) }
{}

/// A viewer is a machine over that stream: each item brings its state to the point after the item.
pub fn a_viewer_is_a_machine()
    ensures { (viewing : Viewing) → IsMachine (viewer viewing) }
{}

/// A viewer with its damage is one too: each item adds its rectangle, and ServerInit the screen.
pub fn a_viewer_with_its_damage_is_a_machine()
    ensures { (viewing : Viewing) → IsMachine (damaging viewing) }
{}

/// So is a viewer with its copies: each CopyRect rectangle adds the one that its data name.
pub fn a_viewer_with_its_copies_is_a_machine()
    ensures { (viewing : Viewing) → IsMachine (moving viewing) }
{}

/// The damage of rectangles is the least rectangle that holds them all: it holds each of their
/// places, and lies in every rectangle that all of them lie in.
pub fn damage_is_the_least_rectangle()
    ensures held { (before after : List Rect) (r : Rect) (x y : ℕ)
        → contains r x y ≡ true
        → holds (rect_of_damage (joined_all None (before ++ r ∷ after))) x y ≡ true }
    ensures least { (rects : List Rect) (outer : Rect)
        → All (λ r. IsWithin (Some r) outer) rects
        → IsWithin (rect_of_damage (joined_all None rects)) outer }
{}

/// A viewer that stands for a state and a prefix has not failed.
pub fn a_viewer_that_stands_has_not_failed()
    ensures { (viewing : Viewing) (viewer : Viewer) (s : ViewerState) (prefix : List ℕ) →
        StandsFor viewing viewer s prefix → fault_of viewer ≡ None }
{}
