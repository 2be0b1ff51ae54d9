//! What the items of an update make of a picture, and of what is known of its pixels.

ghost use Rattle.std.specs.Prelude.{◌≡◌, ℕ, List, [], ◌∷◌, ◌++◌, Option};
ghost use Rattle.rfb_pixel.specs.declared.colour.Colour.{Colour};
ghost use Rattle.rfb_pixel.specs.Format.{PixelFormat};
ghost use Rattle.rfb_picture.specs.declared.rect.Rect.{Rect};
ghost use Rattle.rfb_picture.specs.Grid.{Grid, IsGrid, Holds, copied};
ghost use Rattle.rfb_wire.specs.declared.rect_head.RectHead.{RectHead};
ghost use Rattle.rfb_wire.specs.ServerMessage.{ServerMessage};
ghost use Rattle.rfb_codec.specs.RectData.{RectData, SpellsData, moved_to, replaced, painted};
ghost use Rattle.rfb_codec.specs.UpdateStream.{UpdatePoint, UpdateItem, Message, Rectangle, IsBody};
ghost use Rattle.rfb_codec.specs.Effect.{effect, effects, IsAlike, Agrees, recorded, IsRecorded};
ghost use Rattle.rfb_codec.specs.Effect.{noted};

/// The effect of an item. That of a rectangle is what its data say, where its bytes stand for data.
/// A message has none.
pub fn an_item_has_the_effect_of_its_data()
    ensures painted { (p : UpdatePoint) (head : RectHead) (contents : RectData) (body : List ℕ)
        (picture : Grid Colour) →
        SpellsData p.form p.width p.height head.rect head.encoding contents body →
        effect p (Rectangle head body) picture ≡ painted p.form head.rect contents picture }
    ensures nothing { (p : UpdatePoint) (head : RectHead) (body : List ℕ) (picture : Grid Colour) →
        (IsBody p head body → ⊥) → effect p (Rectangle head body) picture ≡ picture }
    ensures message { (p : UpdatePoint) (message : ServerMessage) (picture : Grid Colour) →
        effect p (Message message) picture ≡ picture }
{}

/// The effect of items is that of one after another, wherever in an update they are.
pub fn effects_follow_one_another()
    ensures none { (p : UpdatePoint) (picture : Grid Colour) → effects p [] picture ≡ picture }
    ensures one { (p : UpdatePoint) (item : UpdateItem) (picture : Grid Colour) →
        effects p (item ∷ []) picture ≡ effect p item picture }
    ensures more { (p : UpdatePoint) (xs ys : List UpdateItem) (picture : Grid Colour) →
        effects p (xs ++ ys) picture ≡ effects p ys (effects p xs picture) }
    ensures anywhere { (p : UpdatePoint) (left : ℕ) (items : List UpdateItem)
        (picture : Grid Colour) →
        effects (record p { left = left }) items picture ≡ effects p items picture }
{}

/// Items keep the size of a picture, and that it has a colour at each place.
pub fn effects_keep_the_size()
    ensures alike { (p : UpdatePoint) (items : List UpdateItem) (picture : Grid Colour) →
        IsAlike picture (effects p items picture) }
    ensures whole { (p : UpdatePoint) (items : List UpdateItem) (picture : Grid Colour) →
        IsGrid picture → IsGrid (effects p items picture) }
{}

/// A picture that agrees with what is known goes on to agree:
///
/// - Where the pixels of a block are painted and known from then on, as put into the record or as
///   found in one.
/// - Where a source on the screen is copied, with what is known of it.
/// - So also where an item has its effect.
pub fn agreement_is_kept()
    ensures replaced { (f : PixelFormat) (rect : Rect) (block : Grid ℕ)
        (picture : Grid Colour) (known : Grid (Option ℕ)) →
        IsGrid picture → IsGrid known → IsAlike picture known → Agrees f picture known →
        Agrees f (replaced f rect block picture) (recorded rect block known) }
    ensures placed { (f : PixelFormat) (rect : Rect) (block : Grid ℕ)
        (picture : Grid Colour) (known now : Grid (Option ℕ)) →
        IsGrid picture → IsAlike picture known → IsAlike known now → Agrees f picture known →
        IsRecorded rect block known now →
        Agrees f (replaced f rect block picture) now }
    ensures copied { (f : PixelFormat) (rect : Rect) (sx sy : ℕ)
        (picture : Grid Colour) (known : Grid (Option ℕ)) →
        IsGrid picture → IsGrid known → IsAlike picture known → Agrees f picture known →
        Holds known (moved_to sx sy rect) →
        Agrees f (copied rect sx sy picture) (copied rect sx sy known) }
    ensures item { (p : UpdatePoint) (head : RectHead) (contents : RectData) (body : List ℕ)
        (picture : Grid Colour) (known : Grid (Option ℕ)) →
        IsGrid picture → IsGrid known → IsAlike picture known →
        known.width ≡ p.width → known.height ≡ p.height →
        SpellsData p.form p.width p.height head.rect head.encoding contents body →
        Agrees p.form picture known →
        Agrees p.form (effect p (Rectangle head body) picture) (noted head.rect contents known) }
{}
