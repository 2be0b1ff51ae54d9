//! The bytes that wait to be written to a viewer.

ghost use Rattle.std.specs.Prelude.{◌≡◌, ◌≤◌, length, drop};

use crate::front::bring_to_front;
use arrayvec::ArrayVec;
use std::alloc::Global;
use std::mem;
use std::rc::Rc;

/// How many bytes a session sends at most beside updates, ever. ProtocolVersion has 12, the
/// security types 2, SecurityResult 4, and ServerInit 279 with a name of 255 bytes, RFC 6143
/// sections 7.1 and 7.3.2. A client of version 3.3 is sent two more for its security type, and no
/// result.
pub(crate) const MOST_ANSWERS: usize = 297;

/// The bytes that wait to be written, and those written before them that are still kept.
#[derive(Debug, Drop)]
pub(crate) enum Waiting {
    /// The greeting, and answers.
    Answers(ArrayVec<u8, MOST_ANSWERS>),
    /// One update. The handshake is done, so no answer comes.
    Update(Vec<u8>),
    /// One that waits at several seats; its memory goes once it waits at none.
    Shared(Rc<Vec<u8>>),
}

impl Waiting {
    ghost use Rattle.rfb_session.specs.ShareRoom.{kept_in, memory_of, IsCut};

    /// An update is shared from now on, if there is memory for that. Then its bytes keep no more
    /// room than they need.
    pub(crate) fn share(&mut self, alloc: Global)
        ensures kept { kept_in self.new ≡ kept_in self.old }
        ensures memory { memory_of self.new ≤ memory_of self.old }
        ensures kind { IsCut self.old self.new }
    {
        let Waiting::Update(bytes) = self else {
            return;
        };
        let mut bytes = mem::replace(bytes, Vec::new(alloc));
        bytes.shrink_to_fit();
        *self = match Rc::new(alloc, bytes) {
            Ok(shared) => Waiting::Shared(shared),
            Err(failed) => Waiting::Update(failed.value),
        };
    }

    /// The first of those kept are written, so many of them. An update that is not shared gives
    /// back what was reserved for it, and the memory of the written bytes where they are at least
    /// half. Returns how many written ones are still kept.
    pub(crate) fn cut(&mut self, written: usize) -> usize
        requires { written ≤ length (kept_in self.old) }
        ensures rest { drop result (kept_in self.new) ≡ drop written (kept_in self.old) }
        ensures within { result ≤ length (kept_in self.new) }
        ensures memory { memory_of self.new ≤ memory_of self.old }
        ensures kind { IsCut self.old self.new }
    {
        let Waiting::Update(bytes) = self else {
            return written;
        };
        if written < bytes.len() - written {
            bytes.shrink_to_fit();
            return written;
        }
        bring_to_front(bytes, written);
        bytes.shrink_to_fit();
        0
    }

    /// Lends all of them.
    pub(crate) fn kept(&self) -> &[u8]
        ensures { result.now ≡ kept_in self.now }
    {
        match self {
            Waiting::Answers(answers) => answers.as_slice(),
            Waiting::Update(bytes) => bytes.as_slice(),
            Waiting::Shared(bytes) => bytes.as_slice(),
        }
    }
}
