//! Calls of a viewer's owner that become messages, RFC 6143 section 7.5.

ghost use Rattle.std.specs.Prelude.{◌≡◌, ◌≢◌, ◌≤◌, ◌++◌, ℕ, List, length, map, false};
ghost use Rattle.std.specs.Prelude.{IfOk, IfErr, Err, None};
ghost use Rattle.rfb_wire.specs.Encoding.{number_of};
ghost use Rattle.rfb_wire.specs.ClientMessage.{SpellsClientMessage, SetPixelFormat, SetEncodings};
ghost use Rattle.rfb_wire.specs.ClientMessage.{FramebufferUpdateRequest, KeyEvent, PointerEvent};
ghost use Rattle.rfb_wire.specs.ClientMessage.{ClientCutText};
ghost use Rattle.rfb_viewer.specs.declared.fault.CallFault.TheVariants.{NotReady};
ghost use Rattle.rfb_viewer.specs.declared.fault.AppendFault.TheVariants.{Refused};
ghost use Rattle.rfb_viewer.specs.declared.fault.TextFault.TheVariants.{NotReady as TextNotReady};
ghost use Rattle.rfb_viewer.specs.Messages.{format_message, encodings_message, request_message};
ghost use Rattle.rfb_viewer.specs.Messages.{key_message, pointer_message, text_message};
ghost use Rattle.rfb_viewer.specs.Refusals.{is_ready, is_updating, is_shown};
ghost use Rattle.rfb_viewer.specs.Viewer.{Viewing, ViewerState};

use crate::call::{Call, Message};
use crate::client_messages::{append_text, spell_encodings, spell_format};
use crate::fault::{AppendFault, CallFault, TextFault};
use crate::viewer::Viewer;
use crate::viewer::progress::{Progress, Request};
use arrayvec::ArrayVec;
use rfb_picture::Rect;
use rfb_pixel::Format;
use rfb_wire::{ClientHead, Encoding};

// The type of FramebufferUpdate, section 7.6.1.
const FRAMEBUFFER_UPDATE: u8 = 0;

impl Viewer {
    ghost use Rattle.rfb_viewer.specs.Calls.{call_refusal, request_refusal, format_refusal};
    ghost use Rattle.rfb_viewer.specs.Calls.{refusal_of, text_refusal_of, requested, formatted};
    ghost use Rattle.rfb_viewer.specs.Refusals.{call_refused_by, request_refused_by};
    ghost use Rattle.rfb_viewer.specs.Refusals.{format_refused_by};
    ghost use Rattle.rfb_viewer.specs.Model.{StandsFor, KeepsRest, fault_of, picture_of};
    ghost use Rattle.rfb_viewer.specs.Damage.{damage_of, ended_of};
    ghost use Rattle.rfb_viewer.specs.Moved.{moved_of};
    ghost use Rattle.rfb_viewer.specs.Call.{append_refusal_of, bytes_of, called, is_noted};
    ghost use Rattle.rfb_viewer.specs.Call.{message_bytes, message_of, refusal_for, refused_by};
    ghost use Rattle.rfb_viewer.specs.Call.{text_in};

    /// Makes a call, and appends its message to the caller's buffer. A text has at most 1,048,576
    /// bytes. `Refused` as `spell` refuses it; else `NoMemory` where the buffer cannot grow. Either
    /// leaves the viewer and the buffer as they were.
    pub fn append(&mut self, call: &Call<'_>, out: &mut Vec<u8>) -> Result<(), AppendFault>
        requires few { length (text_in call.now) ≤ 1048576 }

        // Which message it is.
        ensures sent { IfOk result (λ _. out.new.items ≡ out.old.items ++ message_bytes call.now) }
        ensures spelled { IfOk result (λ _.
            SpellsClientMessage (message_of call.now) (message_bytes call.now)) }
        ensures kept { IfErr result (λ _. out.new.items ≡ out.old.items) }

        // When it is refused, and what it changes.
        ensures refusal { (viewing : Viewing) (s : ViewerState) (prefix : List ℕ)
            → StandsFor viewing self.old s prefix
            → append_refusal_of result ≡ refusal_for s prefix call.now }
        ensures refuses { append_refusal_of result ≡ refused_by self.old call.now }
        ensures failed { fault_of self.old ≢ None → result ≡ Err (Refused NotReady) }
        ensures stands { IfOk result (λ _.
            (viewing : Viewing) (s : ViewerState) (prefix : List ℕ)
            → StandsFor viewing self.old s prefix
            → StandsFor viewing self.new (called call.now s) prefix) }
        ensures refused { IfErr result (λ _. self.new ≡ self.old) }
        ensures unnoted { is_noted call.now ≡ false → self.new ≡ self.old }
        ensures picture { picture_of self.new ≡ picture_of self.old }
        ensures keeps { KeepsRest self.old self.new }
        ensures damage { damage_of self.new ≡ damage_of self.old }
        ensures ended { ended_of self.new ≡ ended_of self.old }
        ensures moved { moved_of self.new ≡ moved_of self.old }
    {
        if let Some(fault) = self.refusal(call) {
            return Err(AppendFault::Refused(fault));
        }
        let Ok(()) = call.append_to(out) else {
            return Err(AppendFault::NoMemory);
        };
        self.note(call);
        Ok(())
    }

    /// Makes a call, and gives its message, without memory. A text has at most 1,048,576 bytes.
    /// `NotReady` before the handshake is done and once the viewer has failed. Else:
    ///
    /// - For a request `Busy` where one is outstanding, and then `AreaOutside` where the area has
    ///   no place or leaves the screen.
    /// - For a format `Busy` where a request is outstanding or the server's bytes are inside an
    ///   update, from its type byte to its last.
    ///
    /// A refusal changes nothing. A request is outstanding until the next `UpdateDone`, and the
    /// next update is read in the format.
    pub fn spell<'a>(&mut self, call: &Call<'a>) -> Result<Message<'a>, CallFault>
        requires few { length (text_in call.now) ≤ 1048576 }

        // Which message it is.
        ensures sent { IfOk result (λ message. bytes_of message ≡ message_bytes call.now) }
        ensures spelled { IfOk result (λ message.
            SpellsClientMessage (message_of call.now) (bytes_of message)) }
        ensures text { IfOk result (λ message. message.text.now ≡ text_in call.now) }

        // When it is refused, and what it changes.
        ensures refusal { (viewing : Viewing) (s : ViewerState) (prefix : List ℕ)
            → StandsFor viewing self.old s prefix
            → refusal_of result ≡ refusal_for s prefix call.now }
        ensures refuses { refusal_of result ≡ refused_by self.old call.now }
        ensures failed { fault_of self.old ≢ None → result ≡ Err NotReady }
        ensures stands { IfOk result (λ message.
            (viewing : Viewing) (s : ViewerState) (prefix : List ℕ)
            → StandsFor viewing self.old s prefix
            → StandsFor viewing self.new (called call.now s) prefix) }
        ensures refused { IfErr result (λ fault. self.new ≡ self.old) }
        ensures unnoted { is_noted call.now ≡ false → self.new ≡ self.old }
        ensures picture { picture_of self.new ≡ picture_of self.old }
        ensures keeps { KeepsRest self.old self.new }
        ensures damage { damage_of self.new ≡ damage_of self.old }
        ensures ended { ended_of self.new ≡ ended_of self.old }
        ensures moved { moved_of self.new ≡ moved_of self.old }
    {
        if let Some(fault) = self.refusal(call) {
            return Err(fault);
        }
        self.note(call);
        Ok(call.message())
    }

    /// FramebufferUpdateRequest, section 7.5.3: asks for the area, what has changed of it or all of
    /// it. The request is outstanding until the next `UpdateDone`. `NotReady` before the handshake
    /// is done and once the viewer has failed; else `Busy` where a request is outstanding; else
    /// `AreaOutside` where the area has no place or leaves the screen. A refusal changes nothing.
    pub fn request(&mut self, incremental: bool, rect: Rect) -> Result<[u8; 10], CallFault>
        // Which message it is.
        ensures sent { IfOk result (λ bytes. bytes ≡ request_message incremental rect) }
        ensures spelled { IfOk result (λ bytes.
            SpellsClientMessage (FramebufferUpdateRequest incremental rect) bytes) }

        // When it is refused, and what it changes.
        ensures refusal { (viewing : Viewing) (s : ViewerState) (prefix : List ℕ)
            → StandsFor viewing self.old s prefix
            → refusal_of result ≡ request_refusal s rect }
        ensures refuses { refusal_of result ≡ request_refused_by self.old rect }
        ensures failed { fault_of self.old ≢ None → result ≡ Err NotReady }
        ensures stands { IfOk result (λ bytes.
            (viewing : Viewing) (s : ViewerState) (prefix : List ℕ)
            → StandsFor viewing self.old s prefix
            → StandsFor viewing self.new (requested s) prefix) }
        ensures refused { IfErr result (λ fault. self.new ≡ self.old) }
        ensures picture { picture_of self.new ≡ picture_of self.old }
        ensures keeps { KeepsRest self.old self.new }
        ensures damage { damage_of self.new ≡ damage_of self.old }
        ensures ended { ended_of self.new ≡ ended_of self.old }
        ensures moved { moved_of self.new ≡ moved_of self.old }
    {
        if let Some(fault) = self.request_refusal(rect) {
            return Err(fault);
        }
        self.request = Request::Outstanding;
        Ok(bytes_of(&ClientHead::Request { incremental, rect }.spell()))
    }

    /// SetPixelFormat, section 7.5.1: asks for updates in this format. The viewer reads the next
    /// update in it. `NotReady` as for `request`; else `Busy` where a request is outstanding or the
    /// server's bytes are inside an update, from its type byte to its last. A refusal changes
    /// nothing.
    pub fn set_format(&mut self, format: Format) -> Result<[u8; 20], CallFault>
        // Which message it is.
        ensures sent { IfOk result (λ bytes. bytes ≡ format_message format) }
        ensures spelled { IfOk result (λ bytes.
            SpellsClientMessage (SetPixelFormat format) bytes) }

        // When it is refused, and what it changes.
        ensures refusal { (viewing : Viewing) (s : ViewerState) (prefix : List ℕ)
            → StandsFor viewing self.old s prefix
            → refusal_of result ≡ format_refusal s prefix }
        ensures refuses { refusal_of result ≡ format_refused_by self.old }
        ensures failed { fault_of self.old ≢ None → result ≡ Err NotReady }
        ensures stands { IfOk result (λ bytes.
            (viewing : Viewing) (s : ViewerState) (prefix : List ℕ)
            → StandsFor viewing self.old s prefix
            → StandsFor viewing self.new (formatted format s) prefix) }
        ensures refused { IfErr result (λ fault. self.new ≡ self.old) }
        ensures picture { picture_of self.new ≡ picture_of self.old }
        ensures keeps { KeepsRest self.old self.new }
        ensures damage { damage_of self.new ≡ damage_of self.old }
        ensures ended { ended_of self.new ≡ ended_of self.old }
        ensures moved { moved_of self.new ≡ moved_of self.old }
    {
        if let Some(fault) = self.format_refusal() {
            return Err(fault);
        }
        self.format = format;
        Ok(bytes_of(&spell_format(format)))
    }

    /// SetEncodings, section 7.5.2: lists the encodings that updates may have, the best first.
    /// Updates are read in all four, whatever the list. `NotReady` as for `request`.
    pub fn set_encodings(
        &self,
        encodings: ArrayVec<Encoding, 4>,
    ) -> Result<ArrayVec<u8, 20>, CallFault>
        ensures sent { IfOk result (λ bytes. bytes.items ≡ encodings_message encodings.items) }
        ensures spelled { IfOk result (λ bytes. SpellsClientMessage
            (SetEncodings (map (λ encoding. number_of encoding) encodings.items)) bytes.items) }
        ensures refusal { (viewing : Viewing) (s : ViewerState) (prefix : List ℕ)
            → StandsFor viewing self.now s prefix
            → refusal_of result ≡ call_refusal s }
        ensures refuses { refusal_of result ≡ call_refused_by self.now }
        ensures failed { fault_of self.now ≢ None → result ≡ Err NotReady }
    {
        if !self.is_ready() {
            return Err(CallFault::NotReady);
        }
        Ok(spell_encodings(encodings.as_slice()))
    }

    /// KeyEvent, section 7.5.4: a key, by its keysym, was pressed or released. `NotReady` as for
    /// `request`.
    pub fn key(&self, down: bool, key: u32) -> Result<[u8; 8], CallFault>
        ensures sent { IfOk result (λ bytes. bytes ≡ key_message down key) }
        ensures spelled { IfOk result (λ bytes.
            SpellsClientMessage (KeyEvent down key) bytes) }
        ensures refusal { (viewing : Viewing) (s : ViewerState) (prefix : List ℕ)
            → StandsFor viewing self.now s prefix
            → refusal_of result ≡ call_refusal s }
        ensures refuses { refusal_of result ≡ call_refused_by self.now }
        ensures failed { fault_of self.now ≢ None → result ≡ Err NotReady }
    {
        if !self.is_ready() {
            return Err(CallFault::NotReady);
        }
        Ok(bytes_of(&ClientHead::Key { down, key }.spell()))
    }

    /// PointerEvent, section 7.5.5: where the pointer is, and which buttons are down, a bit each.
    /// `NotReady` as for `request`.
    pub fn pointer(&self, buttons: u8, x: u16, y: u16) -> Result<[u8; 6], CallFault>
        ensures sent { IfOk result (λ bytes. bytes ≡ pointer_message buttons x y) }
        ensures spelled { IfOk result (λ bytes.
            SpellsClientMessage (PointerEvent buttons x y) bytes) }
        ensures refusal { (viewing : Viewing) (s : ViewerState) (prefix : List ℕ)
            → StandsFor viewing self.now s prefix
            → refusal_of result ≡ call_refusal s }
        ensures refuses { refusal_of result ≡ call_refused_by self.now }
        ensures failed { fault_of self.now ≢ None → result ≡ Err NotReady }
    {
        if !self.is_ready() {
            return Err(CallFault::NotReady);
        }
        Ok(bytes_of(&ClientHead::Pointer { buttons, x, y }.spell()))
    }

    /// ClientCutText, section 7.5.6: appends the message with this text, of at most 1,048,576
    /// bytes, to the caller's buffer. `NotReady` as for `request`; else `NoMemory` where the buffer
    /// cannot grow. Either leaves the buffer as it was.
    pub fn cut_text(&self, text: &[u8], out: &mut Vec<u8>) -> Result<(), TextFault>
        requires few { length text.now ≤ 1048576 }
        ensures sent { IfOk result (λ _. out.new.items ≡ out.old.items ++ text_message text.now) }
        ensures spelled { IfOk result (λ _.
            SpellsClientMessage (ClientCutText text.now) (text_message text.now)) }
        ensures kept { IfErr result (λ _. out.new.items ≡ out.old.items) }
        ensures refusal { (viewing : Viewing) (s : ViewerState) (prefix : List ℕ)
            → StandsFor viewing self.now s prefix
            → text_refusal_of result ≡ call_refusal s }
        ensures refuses { text_refusal_of result ≡ call_refused_by self.now }
        ensures failed { fault_of self.now ≢ None → result ≡ Err TextNotReady }
    {
        if !self.is_ready() {
            return Err(TextFault::NotReady);
        }
        append_text(text, out).map_err(|_| TextFault::NoMemory)
    }

    // Why a call is refused, if it is.
    fn refusal(&self, call: &Call<'_>) -> Option<CallFault>
        ensures refuses { result ≡ refused_by self.now call.now }
        ensures refusal { (viewing : Viewing) (s : ViewerState) (prefix : List ℕ)
            → StandsFor viewing self.now s prefix → result ≡ refusal_for s prefix call.now }
    {
        match *call {
            Call::Request { rect, .. } => self.request_refusal(rect),
            Call::SetFormat(_) => self.format_refusal(),
            Call::SetEncodings(_) | Call::Key { .. } | Call::Pointer { .. } | Call::CutText(_) => {
                if self.is_ready() {
                    None
                } else {
                    Some(CallFault::NotReady)
                }
            }
        }
    }

    // Why a request for the area is refused, if it is.
    fn request_refusal(&self, rect: Rect) -> Option<CallFault>
        ensures refuses { result ≡ request_refused_by self.now rect }
        ensures refusal { (viewing : Viewing) (s : ViewerState) (prefix : List ℕ)
            → StandsFor viewing self.now s prefix → result ≡ request_refusal s rect }
    {
        if !self.is_ready() {
            return Some(CallFault::NotReady);
        }
        if self.request.is_outstanding() {
            return Some(CallFault::Busy);
        }
        if !self.shows(rect) {
            return Some(CallFault::AreaOutside);
        }
        None
    }

    // Why a format is refused, if it is.
    fn format_refusal(&self) -> Option<CallFault>
        ensures refuses { result ≡ format_refused_by self.now }
        ensures refusal { (viewing : Viewing) (s : ViewerState) (prefix : List ℕ)
            → StandsFor viewing self.now s prefix → result ≡ format_refusal s prefix }
    {
        if !self.is_ready() {
            return Some(CallFault::NotReady);
        }
        if self.request.is_outstanding() || self.is_updating() {
            return Some(CallFault::Busy);
        }
        None
    }

    // Goes on after a call that is not refused.
    fn note(&mut self, call: &Call<'_>)
        requires { refused_by self.old call.now ≡ None }
        ensures stands { (viewing : Viewing) (s : ViewerState) (prefix : List ℕ)
            → StandsFor viewing self.old s prefix
            → StandsFor viewing self.new (called call.now s) prefix }
        ensures unnoted { is_noted call.now ≡ false → self.new ≡ self.old }
        ensures picture { picture_of self.new ≡ picture_of self.old }
        ensures keeps { KeepsRest self.old self.new }
        ensures damage { damage_of self.new ≡ damage_of self.old }
        ensures ended { ended_of self.new ≡ ended_of self.old }
        ensures moved { moved_of self.new ≡ moved_of self.old }
    {
        match *call {
            Call::Request { .. } => self.request = Request::Outstanding,
            Call::SetFormat(format) => self.format = format,
            Call::SetEncodings(_) | Call::Key { .. } | Call::Pointer { .. } | Call::CutText(_) => {}
        }
    }

    // Whether messages may be sent: the handshake is done, and the viewer has not failed.
    fn is_ready(&self) -> bool
        ensures { result ≡ is_ready self.now.progress }
    {
        !matches!(self.progress, Progress::Handshake | Progress::Failed(_))
    }

    // Whether the server's bytes are inside an update, from its type byte on.
    fn is_updating(&self) -> bool
        ensures { result ≡ is_updating self.now.progress }
    {
        match &self.progress {
            Progress::Head(part) => part.as_slice().first() == Some(&FRAMEBUFFER_UPDATE),
            Progress::RectHead { .. } | Progress::Data { .. } => true,
            Progress::Handshake
            | Progress::Colours { .. }
            | Progress::CutText { .. }
            | Progress::Failed(_) => false,
        }
    }

    // Whether there is a screen that the area lies on, and the area has a place.
    fn shows(&self, rect: Rect) -> bool
        ensures { result ≡ is_shown self.now.picture rect }
    {
        match &self.picture {
            None => false,
            Some(picture) => rect.w > 0 && rect.h > 0 && picture.holds(rect),
        }
    }
}

// A message of `SIZE` bytes.
fn bytes_of<const SIZE: usize>(message: &ArrayVec<u8, 20>) -> [u8; SIZE]
    requires { length message.now.items ≡ SIZE }
    ensures { result ≡ message.now.items }
{
    let mut bytes = [0; SIZE];
    bytes.copy_from_slice(message.as_slice());
    bytes
}
