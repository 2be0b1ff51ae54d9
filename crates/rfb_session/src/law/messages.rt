//! Laws of what each end sends: the bytes of a viewer's messages, and what an item of a server's
//! leaves of a picture.

ghost use Rattle.std.specs.Prelude.{◌≡◌, ℕ, ◌<◌, ◌^◌, List, length, map};
ghost use Rattle.rfb_pixel.specs.declared.colour.Colour.{Colour};
ghost use Rattle.rfb_pixel.specs.Format.{PixelFormat, IsFormat};
ghost use Rattle.rfb_picture.specs.Grid.{Grid, IsGrid};
ghost use Rattle.rfb_wire.specs.declared.encoding.Encoding.{Encoding};
ghost use Rattle.rfb_wire.specs.Encoding.{number_of};
ghost use Rattle.rfb_wire.specs.ClientMessage.{SpellsFormatMessage, SpellsEncodingsMessage};
ghost use Rattle.rfb_wire.specs.ClientMessage.{SpellsTextMessage};
ghost use Rattle.rfb_codec.specs.UpdateStream.{UpdatePoint, UpdateItem};
ghost use Rattle.rfb_codec.specs.Effect.{effect, IsAlike};
ghost use Rattle.rfb_viewer.specs.Messages.{format_message, encodings_message, text_message};

/// The bytes that a viewer sends for a format, for a list of encodings and for a text spell that
/// message, RFC 6143 sections 7.5.1, 7.5.2 and 7.5.6.
pub fn messages_of_a_viewer_are_spelled()
    ensures format { (form : PixelFormat) → IsFormat form →
        SpellsFormatMessage form (format_message form) }
    ensures encodings { (encodings : List Encoding) → length encodings < 2 ^ 16 →
        SpellsEncodingsMessage (map (λ e. number_of e) encodings) (encodings_message encodings) }
    ensures text { (text : List ℕ) → length text < 2 ^ 32 →
        SpellsTextMessage text (text_message text) }
{}

/// An item that a server sends keeps the size of a picture, and that it has a colour at each place.
pub fn an_item_keeps_the_size()
    ensures alike { (p : UpdatePoint) (item : UpdateItem) (picture : Grid Colour) →
        IsAlike picture (effect p item picture) }
    ensures whole { (p : UpdatePoint) (item : UpdateItem) (picture : Grid Colour) →
        IsGrid picture → IsGrid (effect p item picture) }
{}
