//! The list of SetEncodings, RFC 6143 section 7.5.2, as it comes in slices.

ghost use Rattle.std.specs.Prelude.{◌≡◌, ◌≤◌, ◌<◌, ℕ, List, length, take, None, Ok};
ghost use Rattle.arrayvec.specs.ArrayVec.{ArrayVec as Items};
ghost use Rattle.rfb_wire.specs.declared.encoding.Encoding.{Encoding};
ghost use Rattle.rfb_wire.specs.RectStream.{encoding_of};
ghost use Rattle.rfb_server.specs.declared.session.input.progress.Progress.{Progress};
ghost use Rattle.rfb_server.specs.Encodings.{with_encoding};
ghost use Rattle.rfb_server.specs.Progress.{fault_in};
ghost use Rattle.rfb_server.specs.session.Sessions.{BeginsList, KeepsUp};
ghost use Rattle.rfb_server.specs.session.Slice.{StepsAs};

use crate::encodings::EncodingList;
use crate::session::Session;
use crate::session::input::progress::{NUMBER_SIZE, Progress};
use arrayvec::ArrayVec;
use byteorder::{BigEndian, ByteOrder};
use rfb_wire::Encoding;
use rfb_wire::pieces::append;
use std::mem;

impl Session {
    // `count` numbers come next; without any the list is whole.
    pub(super) fn begin_list(&mut self, count: u16)
        ensures { BeginsList count self.old self.new }
    {
        if count == 0 {
            self.encodings = EncodingList::new();
            self.progress = Progress::Head(ArrayVec::new());
        } else {
            self.progress = Progress::Encodings {
                left: count,
                number: ArrayVec::new(),
                list: EncodingList::new(),
            };
        }
    }

    // Takes bytes of a number: how many these were. The list takes effect with its last number.
    pub(super) fn take_number(&mut self, bytes: &[u8]) -> usize
        requires some { 0 < length bytes.now }
        requires list { (left : ℕ) × (number : Items ℕ) × (list : List Encoding)
            × (self.old.progress ≡ Progress.Encodings left number list) }
        ensures used { (0 < result) × (result ≤ length bytes.now) }
        ensures steps { StepsAs self.old (take result bytes.now) (Ok None) self.new }
        ensures up { KeepsUp self.old self.new }
        ensures going { fault_in self.new.progress ≡ None }
    {
        let Progress::Encodings { left, number, list } = &mut self.progress else {
            unreachable!()
        };
        let missing = NUMBER_SIZE - number.len();
        if bytes.len() < missing {
            append(number, bytes);
            return bytes.len();
        }
        append(number, &bytes[..missing]);
        add_number(list, BigEndian::read_i32(number.as_slice()));
        if *left > 1 {
            *left -= 1;
            number.clear();
            return missing;
        }
        let whole = mem::replace(&mut self.progress, Progress::Head(ArrayVec::new()));
        let Progress::Encodings { list, .. } = whole else {
            unreachable!()
        };
        self.encodings = list;
        missing
    }
}

// Lists the encoding of a number, if there is one.
fn add_number(list: &mut EncodingList, number: i32)
    ensures { list.new ≡ with_encoding list.old (encoding_of number) }
{
    if let Ok(encoding) = Encoding::try_from(number) {
        list.add(encoding);
    }
}
