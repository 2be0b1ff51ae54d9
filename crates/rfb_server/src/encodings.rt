//! The encodings that a viewer listed.

ghost use Rattle.std.specs.Prelude.{◌≡◌, [], Some, true, false};
ghost use Rattle.std.specs.Bool.{OnTrue};
ghost use Rattle.rfb_server.specs.Encodings.{is_same};

use rfb_wire::Encoding;
use std::marker::Model;

/// How many encodings there are, and so at most listed.
pub(crate) const MAX_LISTED: usize = 4;

/// The known encodings of a SetEncodings, RFC 6143 section 7.5.2, in the viewer's order, each once.
#[derive(Debug, Drop)]
pub struct EncodingList {
    slots: [Encoding; MAX_LISTED],
    count: usize,
}

impl Model for EncodingList {
    ghost use Rattle.std.specs.Prelude.{◌≤◌, List, take};
    ghost use Rattle.rfb_wire.specs.declared.encoding.Encoding.{Encoding};
    ghost use Rattle.rfb_server.specs.Encodings.{IsEachOnce};

    ghost Value = { List Encoding };

    ghost view = { λ l. take l.count l.slots };

    ghost invariant = { λ l. (l.count ≤ 4) × IsEachOnce (take l.count l.slots) };
}

impl EncodingList {
    ghost use Rattle.rfb_wire.specs.declared.encoding.Encoding.TheVariants.{CopyRect};
    ghost use Rattle.rfb_server.specs.Encodings.{is_listed, preferred, with_encoding};
    ghost use Rattle.rfb_server.specs.Composition.{may_send};

    /// No encoding is listed.
    pub(crate) fn new() -> EncodingList
        ensures { result ≡ [] }
    {
        EncodingList {
            slots: [Encoding::Raw; MAX_LISTED],
            count: 0,
        }
    }

    /// The encodings, the one that the viewer prefers first.
    pub(crate) fn as_slice(&self) -> &[Encoding]
        ensures { result.now ≡ self.now }
    {
        &self.slots[..self.count]
    }

    /// Whether the encoding is listed.
    pub(crate) fn has(&self, encoding: Encoding) -> bool
        ensures { result ≡ is_listed encoding self.now }
    {
        let list = self.as_slice();
        for i in 0..list.len() {
            if same(encoding, list[i]) {
                return true;
            }
        }
        false
    }

    /// Whether both list the same encodings, in one order.
    pub(crate) fn is_as(&self, other: &EncodingList) -> bool
        ensures { OnTrue result (self.now ≡ other.now) }
    {
        let list = self.as_slice();
        let others = other.as_slice();
        if list.len() != others.len() {
            return false;
        }
        for i in 0..list.len() {
            if !same(list[i], others[i]) {
                return false;
            }
        }
        true
    }

    /// The encoding that pixels are to be sent in: the first listed one that brings pixels, and Raw
    /// where there is none.
    pub(crate) fn preferred(&self) -> Encoding
        ensures first { result ≡ preferred self.now }
        ensures sendable { may_send self.now result ≡ true }
        ensures pixels { is_same result CopyRect ≡ false }
    {
        let list = self.as_slice();
        for i in 0..list.len() {
            let encoding = list[i];
            if !same(encoding, Encoding::CopyRect) {
                return encoding;
            }
        }
        Encoding::Raw
    }

    /// Lists the encoding after the others, unless it is listed.
    pub(crate) fn add(&mut self, encoding: Encoding)
        ensures { self.new ≡ with_encoding self.old (Some encoding) }
    {
        if !self.has(encoding) {
            self.slots[self.count] = encoding;
            self.count += 1;
        }
    }
}

// Whether both are one encoding.
fn same(one: Encoding, other: Encoding) -> bool
    ensures { result ≡ is_same one other }
{
    matches!(
        (one, other),
        (Encoding::Raw, Encoding::Raw)
            | (Encoding::CopyRect, Encoding::CopyRect)
            | (Encoding::Rre, Encoding::Rre)
            | (Encoding::Hextile, Encoding::Hextile)
    )
}
