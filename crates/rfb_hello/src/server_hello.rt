//! The server's end of a handshake.

ghost use Rattle.std.specs.Prelude.{◌≡◌, ◌≤◌, ◌<◌, ◌+◌, ℕ, List, [], ◌∷◌, length, take, true};
ghost use Rattle.std.specs.Prelude.{false, IfOk, IfErr, Some, None, Ok};
ghost use Rattle.rfb_wire.specs.stream.End.{FedBy, RefusedBy, StepsBy, StaysFailed};
ghost use Rattle.rfb_hello.specs.Version.{version_text};
ghost use Rattle.rfb_hello.specs.ClientHandshake.{AwaitsVersion, ClientPoint};
ghost use Rattle.rfb_hello.specs.PendingBytes.{client_handshake_pending};
ghost use Rattle.rfb_hello.specs.ServerEnd.{ServerSetup, as_reply, server_end, server_init_bytes};
ghost use Rattle.rfb_hello.specs.ServerModel.{StandsFor, fault_of, is_open, setup_of};
ghost use Rattle.rfb_hello.specs.ServerModel.{left_of};
ghost use Rattle.rfb_hello.specs.pieces.ServerPiece.{RefusesAs, TakesAs};
ghost use Rattle.rfb_hello.specs.declared.server_hello.progress.Progress.{Progress};
ghost use Rattle.arrayvec.specs.ArrayVec.{ArrayVec as Items};

mod answers;
mod progress;

use crate::fault::HelloFault;
use crate::fed::Fed;
use crate::pieces::{SECURITY_NONE, reply_of};
use crate::server_hello::answers::{after_version, offered, security};
use crate::server_hello::progress::Progress;
use crate::step::{MAX_REPLY, ServerStep};
use crate::version::{VERSION_PART, VERSION_SIZE, Version};
use arrayvec::ArrayVec;
use byteorder::{BigEndian, ByteOrder};
use rfb_pixel::Format;
use rfb_wire::pieces::{append, gather};

/// How many bytes the name of a screen has at most.
pub const MAX_NAME: usize = 255;

/// The server's end of a handshake. It is fed what the client sends, and returns what is to be
/// sent back. It offers one version, and security type None alone. It takes no memory.
#[derive(Debug, Drop)]
pub struct ServerHello {
    offer: Version,
    width: u16,
    height: u16,
    name: ArrayVec<u8, MAX_NAME>,
    progress: Progress,
}

impl ServerHello {
    /// An end that has sent nothing and was fed nothing. It goes up to version `offer`; its
    /// ServerInit will have the screen's size and its name, of at most 255 bytes.
    pub fn new(offer: Version, width: u16, height: u16, name: &[u8]) -> ServerHello
        requires { length name.now ≤ MAX_NAME }
        ensures { StandsFor
            (record { offer = offer; width = width; height = height; name = name.now })
            result AwaitsVersion [] }
    {
        let mut kept = ArrayVec::new();
        append(&mut kept, name);
        ServerHello {
            offer,
            width,
            height,
            name: kept,
            progress: Progress::Version(ArrayVec::new()),
        }
    }

    /// The ProtocolVersion that is sent before all else.
    pub fn greeting(&self) -> [u8; VERSION_SIZE]
        ensures { result ≡ version_text (setup_of self.now).offer }
    {
        self.offer.text()
    }

    /// Takes bytes of the client's: up to the last byte of the first item with an event, else all.
    /// A fault is returned at its last byte, and by every later call; these take nothing. Once
    /// the handshake is done no bytes are taken: they are messages.
    pub fn feed(&mut self, bytes: &[u8]) -> Result<Fed<ServerStep>, HelloFault>
        // What was taken, what it was, and what is left.
        ensures used { IfOk result (λ fed. fed.used ≤ length bytes.now) }
        ensures all { IfOk result (λ fed. fed.event ≡ None
            → is_open self.old ≡ true → fed.used ≡ length bytes.now) }
        ensures some { IfOk result (λ fed. is_open self.old ≡ true
            → 0 < length bytes.now → 0 < fed.used) }
        ensures fed { IfOk result (λ fed. (setup : ServerSetup)
            → FedBy (server_end setup) (StandsFor setup)
            self.old (take fed.used bytes.now) fed.event self.new) }
        ensures setup { setup_of self.new ≡ setup_of self.old }
        ensures left { IfOk result (λ fed. left_of self.old ≤ fed.used + left_of self.new) }

        // When a fault comes, and that it stays.
        ensures fault { IfErr result (λ fault. (setup : ServerSetup)
            → RefusedBy (server_end setup) (StandsFor setup) self.old bytes.now fault) }
        ensures fails { IfErr result (λ fault. fault_of self.new ≡ Some fault) }
        ensures failed { StaysFailed (fault_of self.old) self.old result self.new }
    {
        if let Progress::Failed(fault) = self.progress {
            return Err(fault);
        }
        let mut used = 0;
        while used < bytes.len() && self.is_open() {
            let (n, event) = self.take(&bytes[used..])?;
            used += n;
            if event.is_some() {
                return Ok(Fed { used, event });
            }
        }
        Ok(Fed { used, event: None })
    }

    /// Whether the client's bytes go on in the handshake: it is not done, and has not failed.
    pub fn is_open(&self) -> bool
        ensures { result ≡ is_open self.now }
    {
        self.progress.is_open()
    }

    /// How many bytes the client sends at least before its handshake is done: what its version
    /// lacks, its choice of a security type, which version 3.3 does without, and ClientInit. None
    /// once it is done, or has failed.
    pub fn left(&self) -> usize
        ensures { result ≡ left_of self.now }
    {
        self.progress.left()
    }

    /// How many bytes are pending: those of the client's next item after its last whole piece. It
    /// keeps no others.
    pub fn pending(&self) -> usize
        ensures value { (setup : ServerSetup) (point : ClientPoint) (prefix : List ℕ)
            → StandsFor setup self.now point prefix
            → result ≡ client_handshake_pending point prefix }
        ensures few { result ≤ 11 }
        ensures closed { is_open self.now ≡ false → result ≡ 0 }
    {
        self.progress.part()
    }

    // Takes bytes for the client's next item, as many of it as there are. Returns how many these
    // were, and what the end answers once the item is whole.
    fn take(&mut self, bytes: &[u8]) -> Result<(usize, Option<ServerStep>), HelloFault>
        requires some { 0 < length bytes.now }
        requires open { is_open self.old ≡ true }
        ensures used { IfOk result (λ taken. (0 < taken.0) × (taken.0 ≤ length bytes.now)) }
        ensures left { IfOk result (λ taken. left_of self.old ≤ taken.0 + left_of self.new) }
        ensures open { IfOk result (λ taken. taken.1 ≡ None → is_open self.new ≡ true) }
        ensures going { IfOk result (λ taken. fault_of self.new ≡ None) }
        ensures fed { IfOk result (TakesAs self.old bytes.now self.new) }
        ensures setup { setup_of self.new ≡ setup_of self.old }
        ensures fault { IfErr result (RefusesAs self.old bytes.now) }
        ensures fails { IfErr result (λ fault. fault_of self.new ≡ Some fault) }
    {
        match self.progress {
            Progress::Choice(version) => {
                let event = self.take_choice(version, bytes[0])?;
                Ok((1, event))
            }
            Progress::Init(version) => Ok((1, Some(self.take_init(version, bytes[0])))),
            Progress::Version(_) => self.take_version(bytes),
            Progress::Done(..) | Progress::Failed(_) => unreachable!(),
        }
    }

    // Takes bytes of the client's version.
    fn take_version(&mut self, bytes: &[u8]) -> Result<(usize, Option<ServerStep>), HelloFault>
        requires some { 0 < length bytes.now }
        requires open { (text : Items ℕ) × (self.old.progress ≡ Progress.Version text) }
        ensures used { IfOk result (λ taken. (0 < taken.0) × (taken.0 ≤ length bytes.now)) }
        ensures left { IfOk result (λ taken. left_of self.old ≤ taken.0 + left_of self.new) }
        ensures open { IfOk result (λ taken. is_open self.new ≡ true) }
        ensures fed { IfOk result (TakesAs self.old bytes.now self.new) }
        ensures setup { setup_of self.new ≡ setup_of self.old }
        ensures fault { IfErr result (RefusesAs self.old bytes.now) }
        ensures fails { IfErr result (λ fault. fault_of self.new ≡ Some fault) }
    {
        let Progress::Version(text) = &mut self.progress else {
            unreachable!()
        };
        let (used, whole) = gather::<VERSION_PART, VERSION_SIZE>(text, bytes);
        let Some(whole) = whole else {
            return Ok((used, None));
        };
        match offered(self.offer, whole.as_slice()) {
            Ok(version) => {
                self.progress = after_version(version);
                Ok((used, Some(ServerStep::Reply(security(version)))))
            }
            Err(fault) => Err(self.fail(fault)),
        }
    }

    // Takes a choice of a security type, which is one byte.
    fn take_choice(
        &mut self,
        version: Version,
        choice: u8,
    ) -> Result<Option<ServerStep>, HelloFault>
        requires { self.old.progress ≡ Progress.Choice version }
        ensures steps { (setup : ServerSetup)
            → StepsBy (server_end setup) (StandsFor setup) self.old (choice ∷ []) result self.new }
        ensures setup { setup_of self.new ≡ setup_of self.old }
        ensures left { IfOk result (λ event. left_of self.new ≡ 1) }
        ensures open { IfOk result (λ event. is_open self.new ≡ true) }
        ensures fails { IfErr result (λ fault. fault_of self.new ≡ Some fault) }
    {
        if choice != SECURITY_NONE {
            return Err(self.fail(HelloFault::BadSecurityChoice));
        }
        self.progress = Progress::Init(version);
        Ok(match version {
            Version::V38 => Some(ServerStep::Reply(reply_of(&[0, 0, 0, 0]))),
            Version::V33 | Version::V37 => None,
        })
    }

    // Takes ClientInit, which is one byte.
    fn take_init(&mut self, version: Version, shared_flag: u8) -> ServerStep
        requires { self.old.progress ≡ Progress.Init version }
        ensures steps { (setup : ServerSetup)
            → StepsBy (server_end setup) (StandsFor setup)
            self.old (shared_flag ∷ []) (Ok (Some result)) self.new }
        ensures setup { setup_of self.new ≡ setup_of self.old }
        ensures going { fault_of self.new ≡ None }
    {
        let shared = shared_flag != 0;
        self.progress = Progress::Done(version, shared);
        ServerStep::Ready {
            reply: self.server_init(),
            version,
            shared,
        }
    }

    // Holds a fault from now on.
    fn fail(&mut self, fault: HelloFault) -> HelloFault
        ensures value { result ≡ fault }
        ensures after { self.new ≡ record self.old { progress = Progress.Failed fault } }
    {
        self.progress = Progress::Failed(fault);
        fault
    }

    // ServerInit, with the name.
    fn server_init(&self) -> ArrayVec<u8, MAX_REPLY>
        ensures { result ≡ as_reply (server_init_bytes (setup_of self.now)) }
    {
        let name = self.name.as_slice();
        let mut sizes = [0; 4];
        BigEndian::write_u16(&mut sizes, self.width);
        BigEndian::write_u16(&mut sizes[2..], self.height);
        let mut length = [0; 4];
        BigEndian::write_u32(&mut length, name.len() as u32);
        let mut reply = ArrayVec::new();
        append(&mut reply, &sizes);
        append(&mut reply, &Format::rgb888().write());
        append(&mut reply, &length);
        append(&mut reply, name);
        reply
    }
}

#[cfg(test)]
mod tests;
