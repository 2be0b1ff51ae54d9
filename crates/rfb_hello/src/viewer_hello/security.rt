//! What a viewer takes of a server up to ServerInit: its version, the security types and the
//! result.

ghost use Rattle.std.specs.Prelude.{◌≡◌, ◌≤◌, ◌<◌, ℕ, [], ◌∷◌, length, take, true, IfOk, IfErr};
ghost use Rattle.std.specs.Prelude.{Some, None, Ok, Bool};
ghost use Rattle.arrayvec.specs.ArrayVec.{ArrayVec as Items};
ghost use Rattle.rfb_wire.specs.stream.End.{StepsBy};
ghost use Rattle.rfb_hello.specs.Offer.{offered_of};
ghost use Rattle.rfb_hello.specs.TypesSoFar.{TypesSoFar};
ghost use Rattle.rfb_hello.specs.Version.{lower};
ghost use Rattle.rfb_hello.specs.ViewerEnd.{ViewerSetup, viewer_end, choice_bytes, shared_flag};
ghost use Rattle.rfb_hello.specs.ViewerModel.{StandsFor, is_open, setup_of};
ghost use Rattle.rfb_hello.specs.pieces.ViewerPiece.{TakesPiece};
ghost use Rattle.rfb_hello.specs.pieces.ViewerPiece.{progress_after_version, progress_after_types};
ghost use Rattle.rfb_hello.specs.declared.viewer_hello.progress.Progress.{Progress};

use crate::fault::HelloFault;
use crate::offered::Offered;
use crate::pieces::{SECURITY_NONE, gather_word, has_none, reply_of};
use crate::step::{MAX_ANSWER, ViewerStep};
use crate::version::{VERSION_PART, VERSION_SIZE, Version};
use crate::viewer_hello::progress::{Cause, Progress};
use crate::viewer_hello::type_list::TypeList;
use crate::viewer_hello::{Taken, ViewerHello};
use arrayvec::ArrayVec;
use rfb_wire::pieces::gather;

impl ViewerHello {
    // Takes bytes of the server's version.
    pub(super) fn take_version(&mut self, bytes: &[u8]) -> Taken
        requires some { 0 < length bytes.now }
        requires open { (part : Items ℕ) × (self.old.progress ≡ Progress.Version part) }
        ensures { TakesPiece self.old bytes.now result.0 result.1 self.new }
    {
        let Progress::Version(part) = &mut self.progress else {
            unreachable!()
        };
        let (used, whole) = gather::<VERSION_PART, VERSION_SIZE>(part, bytes);
        let Some(whole) = whole else {
            return (used, Ok(None));
        };
        let Ok(version) = Version::try_from(whole.as_slice()) else {
            return (used, Err(self.fail(HelloFault::BadVersion)));
        };
        let version = lower(self.limit, version);
        self.progress = after_version(version);
        (used, Ok(Some(ViewerStep::Reply(reply_of(&version.text())))))
    }

    // Takes bytes of the word that 3.3 has for a security type.
    pub(super) fn take_word(&mut self, bytes: &[u8]) -> Taken
        requires some { 0 < length bytes.now }
        requires open { (part : Items ℕ) × (self.old.progress ≡ Progress.Word part) }
        ensures { TakesPiece self.old bytes.now result.0 result.1 self.new }
    {
        let Progress::Word(part) = &mut self.progress else {
            unreachable!()
        };
        let (used, whole) = gather_word(part, bytes);
        let Some(word) = whole else {
            return (used, Ok(None));
        };
        if word == 0 {
            self.progress = before_reason(Cause::Refused);
            return (used, Ok(None));
        }
        self.offered = Offered::Chosen(word);
        match word {
            1 => {
                self.progress = Progress::Init(Version::V33, ArrayVec::new());
                (used, Ok(Some(ViewerStep::Reply(client_init(self.shared)))))
            }
            2 => (used, Err(self.fail(HelloFault::NoneNotOffered))),
            _ => (used, Err(self.fail(HelloFault::BadSecurityWord))),
        }
    }

    // Takes the count of the server's security types.
    pub(super) fn take_count(&mut self, version: Version, count: u8)
        requires { self.old.progress ≡ Progress.Count version }
        ensures steps { (setup : ViewerSetup)
            → StepsBy (viewer_end setup) (StandsFor setup)
            self.old (count ∷ []) (Ok None) self.new }
        ensures setup { setup_of self.new ≡ setup_of self.old }
        ensures offered { offered_of self.new ≡ offered_of self.old }
        ensures open { is_open self.new ≡ true }
    {
        self.progress = match count.checked_sub(1) {
            None => before_reason(Cause::Refused),
            Some(more) => Progress::Types {
                version,
                list: TypeList::new(more),
            },
        };
    }

    // Takes security types, which are judged at the last of them.
    pub(super) fn take_types(&mut self, bytes: &[u8]) -> Taken
        requires some { 0 < length bytes.now }
        requires open { (version : Version) × (list : TypesSoFar)
            × (self.old.progress ≡ Progress.Types version list) }
        ensures { TakesPiece self.old bytes.now result.0 result.1 self.new }
    {
        let Progress::Types { version, list } = &mut self.progress else {
            unreachable!()
        };
        let (used, whole) = list.take(bytes);
        let Some(types) = whole else {
            return (used, Ok(None));
        };
        let version = *version;
        let takes = has_none(types.as_slice());
        self.offered = Offered::Listed(types);
        if !takes {
            return (used, Err(self.fail(HelloFault::NoneNotOffered)));
        }
        self.progress = after_types(version);
        let reply = choice(version, self.shared);
        (used, Ok(Some(ViewerStep::Reply(reply))))
    }

    // Takes bytes of SecurityResult.
    pub(super) fn take_result(&mut self, bytes: &[u8]) -> Taken
        requires some { 0 < length bytes.now }
        requires open { (version : Version) × (part : Items ℕ)
            × (self.old.progress ≡ Progress.Result version part) }
        ensures { TakesPiece self.old bytes.now result.0 result.1 self.new }
    {
        let Progress::Result(version, part) = &mut self.progress else {
            unreachable!()
        };
        let (used, whole) = gather_word(part, bytes);
        let Some(word) = whole else {
            return (used, Ok(None));
        };
        if word != 0 {
            self.progress = before_reason(Cause::SecurityFailed);
            return (used, Ok(None));
        }
        self.progress = Progress::Init(*version, ArrayVec::new());
        (used, Ok(Some(ViewerStep::Reply(client_init(self.shared)))))
    }
}

// The lower of two versions.
fn lower(a: Version, b: Version) -> Version
    ensures { result ≡ lower a b }
{
    if a.minor() <= b.minor() { a } else { b }
}

// What comes next of a server with which this version is used.
fn after_version(version: Version) -> Progress
    ensures { result ≡ progress_after_version version }
{
    match version {
        Version::V33 => Progress::Word(ArrayVec::new()),
        Version::V37 | Version::V38 => Progress::Count(version),
    }
}

// What comes next of a server that offered None in a list.
fn after_types(version: Version) -> Progress
    ensures { result ≡ progress_after_types version }
{
    match version {
        Version::V33 | Version::V37 => Progress::Init(version, ArrayVec::new()),
        Version::V38 => Progress::Result(version, ArrayVec::new()),
    }
}

// A reason comes next.
fn before_reason(cause: Cause) -> Progress
    ensures { result ≡ Progress.ReasonLength cause (record { items = [] }) }
{
    Progress::ReasonLength {
        cause,
        part: ArrayVec::new(),
    }
}

// The choice of None, and before 3.8 ClientInit with it, since no SecurityResult is waited for.
fn choice(version: Version, shared: bool) -> ArrayVec<u8, MAX_ANSWER>
    ensures { result.items ≡ choice_bytes version shared }
{
    match version {
        Version::V33 | Version::V37 => reply_of(&[SECURITY_NONE, u8::from(shared)]),
        Version::V38 => reply_of(&[SECURITY_NONE]),
    }
}

// ClientInit, section 7.3.1.
fn client_init(shared: bool) -> ArrayVec<u8, MAX_ANSWER>
    ensures { result.items ≡ shared_flag shared ∷ [] }
{
    reply_of(&[u8::from(shared)])
}
