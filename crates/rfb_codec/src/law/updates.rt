//! What comes next in an update, as its parts decide, and an update as a whole.

ghost use Rattle.std.specs.Prelude.{◌≡◌, ℕ, ◌-◌, ◌<◌, List, [], ◌++◌, length, map, Option};
ghost use Rattle.rfb_pixel.specs.declared.colour.Colour.{Colour};
ghost use Rattle.rfb_picture.specs.Grid.{Grid, IsGrid};
ghost use Rattle.rfb_wire.specs.declared.rect_head.RectHead.{RectHead};
ghost use Rattle.rfb_wire.specs.stream.Prefix.{More, Got, Bad};
ghost use Rattle.rfb_wire.specs.stream.Grammar.{ReadsAll, past_all};
ghost use Rattle.rfb_wire.specs.ServerMessage.{ServerMessage, ServerFault, FramebufferUpdate};
ghost use Rattle.rfb_wire.specs.ServerMessage.{server_message};
ghost use Rattle.rfb_codec.specs.declared.fault.PaintFault.{PaintFault};
ghost use Rattle.rfb_codec.specs.RectData.{RectData, painted};
ghost use Rattle.rfb_codec.specs.UpdateStream.{UpdatePoint, Message, Rectangle, InMessage, InData};
ghost use Rattle.rfb_codec.specs.UpdateStream.{update_stream};
ghost use Rattle.rfb_codec.specs.Effect.{effect, effects, IsAlike, Agrees};
ghost use Rattle.rfb_codec.specs.WholeUpdate.{SentRect, item_of, SpellsWholeUpdate, update_of};
ghost use Rattle.rfb_codec.specs.WholeUpdate.{AreNoted};
ghost use Rattle.rfb_codec.specs.Painter.{data_of, painting_of, AwaitsData};

/// The bytes of an update are read as its head and its rectangles, and no other bytes are. After an
/// update none of its rectangles is left.
pub fn an_update_is_its_rectangles()
    ensures read { (p : UpdatePoint) (sent : List SentRect) (bytes : List ℕ) →
        p.left ≡ 0 → SpellsWholeUpdate p sent bytes →
        ReadsAll update_stream p bytes (update_of sent) [] }
    ensures spelled { (p : UpdatePoint) (sent : List SentRect) (bytes : List ℕ) →
        ReadsAll update_stream p bytes (update_of sent) [] → SpellsWholeUpdate p sent bytes }
    ensures past { (p : UpdatePoint) (sent : List SentRect) →
        past_all update_stream p (update_of sent) ≡ record p { left = 0 } }
{}

/// A picture that agrees with what is known agrees after an update's rectangles with what these
/// make known, one after another.
pub fn agreement_is_kept_by_an_update()
    ensures { (p : UpdatePoint) (sent : List SentRect) (picture : Grid Colour)
        (known now : Grid (Option ℕ)) →
        IsGrid picture → IsGrid known → IsAlike picture known →
        known.width ≡ p.width → known.height ≡ p.height →
        Agrees p.form picture known → AreNoted p sent known now →
        Agrees p.form (effects p (map item_of sent) picture) now }
{}

/// The point after a head, and after a rectangle.
pub fn rectangles_are_counted_down()
    ensures head { (p : UpdatePoint) (rectangles : ℕ) →
        update_stream.past p (Message (FramebufferUpdate rectangles)) ≡
        record p { left = rectangles } }
    ensures rectangle { (p : UpdatePoint) (head : RectHead) (body : List ℕ) →
        update_stream.past p (Rectangle head body) ≡ record p { left = p.left - 1 } }
{}

/// Where no rectangle is left, a message comes next.
pub fn messages_stand_between_updates()
    ensures got { (p : UpdatePoint) (bytes rest : List ℕ) (message : ServerMessage) → p.left ≡ 0 →
        server_message bytes ≡ Got message rest →
        update_stream.next p bytes ≡ Got (Message message) rest }
    ensures waits { (p : UpdatePoint) (bytes : List ℕ) → p.left ≡ 0 →
        server_message bytes ≡ More → update_stream.next p bytes ≡ More }
    ensures bad { (p : UpdatePoint) (bytes : List ℕ) (fault : ServerFault) → p.left ≡ 0 →
        server_message bytes ≡ Bad fault → update_stream.next p bytes ≡ Bad (InMessage fault) }
{}

/// After a rectangle's head, the stream and a painter say the same of the data: the rectangle and
/// its effect where they are all there, nothing where they wait, and their fault.
pub fn a_rectangle_is_decided_by_its_data()
    ensures short { (p : UpdatePoint) (bytes : List ℕ) →
        0 < p.left → length bytes < 12 → update_stream.next p bytes ≡ More }
    ensures got { (p : UpdatePoint) (head : RectHead) (front body rest : List ℕ)
        (contents : RectData) (picture : Grid Colour) → AwaitsData p head front picture →
        data_of (painting_of p head) picture body ≡ Got contents [] →
        update_stream.next p ((front ++ body) ++ rest) ≡ Got (Rectangle head body) rest }
    ensures effect { (p : UpdatePoint) (head : RectHead) (front body : List ℕ)
        (contents : RectData) (picture : Grid Colour) → AwaitsData p head front picture →
        data_of (painting_of p head) picture body ≡ Got contents [] →
        effect p (Rectangle head body) picture ≡ painted p.form head.rect contents picture }
    ensures waits { (p : UpdatePoint) (head : RectHead) (front body : List ℕ)
        (picture : Grid Colour) → AwaitsData p head front picture →
        data_of (painting_of p head) picture body ≡ More →
        update_stream.next p (front ++ body) ≡ More }
    ensures bad { (p : UpdatePoint) (head : RectHead) (front body : List ℕ)
        (fault : PaintFault) (picture : Grid Colour) → AwaitsData p head front picture →
        data_of (painting_of p head) picture body ≡ Bad fault →
        update_stream.next p (front ++ body) ≡ Bad (InData fault) }
{}
