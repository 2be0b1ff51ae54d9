//! The messages that a viewer sends, as bytes, RFC 6143 section 7.5.

ghost use Rattle.std.specs.Prelude.{◌≡◌, ◌≤◌, ◌++◌, length, map, OnOk, OnErr};
ghost use Rattle.rfb_wire.specs.Encoding.{number_of};
ghost use Rattle.rfb_wire.specs.ClientMessage.{SpellsClientMessage, SetPixelFormat, SetEncodings};
ghost use Rattle.rfb_viewer.specs.Messages.{format_message, encodings_message, ready_bytes};
ghost use Rattle.rfb_viewer.specs.Messages.{text_message};

use crate::event::MAX_READY;
use arrayvec::ArrayVec;
use byteorder::{BigEndian, ByteOrder};
use rfb_pixel::Format;
use rfb_wire::pieces::{append, append_within};
use rfb_wire::{ClientHead, Encoding};
use std::alloc::AllocError;

/// SetPixelFormat, section 7.5.1.
pub(crate) fn spell_format(format: Format) -> ArrayVec<u8, 20>
    ensures value { result.items ≡ format_message format }
    ensures spelled { SpellsClientMessage (SetPixelFormat format) result.items }
{
    ClientHead::SetPixelFormat(format.write()).spell()
}

/// SetEncodings, section 7.5.2, with the list in its order.
pub(crate) fn spell_encodings(encodings: &[Encoding]) -> ArrayVec<u8, 20>
    requires { length encodings.now ≤ 4 }
    ensures value { result.items ≡ encodings_message encodings.now }
    ensures spelled { SpellsClientMessage
        (SetEncodings (map (λ encoding. number_of encoding) encodings.now)) result.items }
{
    let mut message = ClientHead::SetEncodings(encodings.len() as u16).spell();
    for encoding in encodings {
        let mut number = [0; 4];
        BigEndian::write_u32(&mut number, encoding.number().cast_unsigned());
        append(&mut message, &number);
    }
    message
}

/// What is sent once the handshake is done: the format that is wanted, and the encodings.
pub(crate) fn ready_answer(format: Format, encodings: &[Encoding]) -> ArrayVec<u8, MAX_READY>
    requires { length encodings.now ≤ 4 }
    ensures { result.items ≡ ready_bytes format encodings.now }
{
    let mut answer = ArrayVec::new();
    append(&mut answer, spell_format(format).as_slice());
    append(&mut answer, spell_encodings(encodings).as_slice());
    answer
}

/// Appends ClientCutText, section 7.5.6, with this text, or where there is no memory nothing.
pub(crate) fn append_text(text: &[u8], out: &mut Vec<u8>) -> Result<(), AllocError>
    requires { length text.now ≤ 1048576 }
    ensures sent { OnOk result (out.new.items ≡ out.old.items ++ text_message text.now) }
    ensures kept { OnErr result (out.new.items ≡ out.old.items) }
{
    let head = ClientHead::CutText(text.len() as u32).spell();
    out.reserve(head.len() + text.len())?;
    append_within(out, head.as_slice());
    append_within(out, text);
    Ok(())
}
