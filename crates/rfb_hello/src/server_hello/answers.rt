//! What a server makes of a client's version, and how it answers.

ghost use Rattle.std.specs.Prelude.{◌≡◌, length, IfOk};
ghost use Rattle.std.specs.Result.{result_err};
ghost use Rattle.rfb_hello.specs.Version.{version_of};
ghost use Rattle.rfb_hello.specs.ClientHandshake.{client_version_fault};
ghost use Rattle.rfb_hello.specs.ServerEnd.{as_reply, security_bytes};
ghost use Rattle.rfb_hello.specs.pieces.ServerPiece.{progress_after};

use crate::fault::HelloFault;
use crate::pieces::{SECURITY_NONE, reply_of};
use crate::server_hello::progress::Progress;
use crate::step::MAX_REPLY;
use crate::version::{VERSION_SIZE, Version};
use arrayvec::ArrayVec;

/// The version that the client's text stands for, where it is not above the one that was offered.
pub fn offered(offer: Version, text: &[u8]) -> Result<Version, HelloFault>
    requires { length text.now ≡ VERSION_SIZE }
    ensures ok { IfOk result (λ version. version ≡ version_of text.now) }
    ensures fault { result_err result ≡ client_version_fault offer text.now }
{
    let version = Version::try_from(text)?;
    if version.minor() > offer.minor() {
        return Err(HelloFault::VersionTooHigh);
    }
    Ok(version)
}

/// What comes next of a client that goes by this version.
pub fn after_version(version: Version) -> Progress
    ensures { result ≡ progress_after version }
{
    match version {
        Version::V33 => Progress::Init(version),
        Version::V37 | Version::V38 => Progress::Choice(version),
    }
}

/// The security type None, as this version has it.
pub fn security(version: Version) -> ArrayVec<u8, MAX_REPLY>
    ensures { result ≡ as_reply (security_bytes version) }
{
    match version {
        Version::V33 => reply_of(&[0, 0, 0, SECURITY_NONE]),
        Version::V37 | Version::V38 => reply_of(&[1, SECURITY_NONE]),
    }
}
