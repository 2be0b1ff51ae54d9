//! Writing all of some bytes.

ghost use Rattle.std.specs.Prelude.{◌≡◌, ◌<◌, ◌+◌, ◌-◌, ◌^◌, OnOk, OnErr};
ghost use Rattle.std.specs.Io.KnownBytes.{Appends};
ghost use Rattle.rfb_session.specs.Devices.{AppendsBeginning};
ghost use Rattle.rfb_session.specs.Wire.{Sends, SendsSome};

use crate::engine::device::Sink;
use crate::engine::fault::Device;
use crate::engine::wire::Wire;

/// Writes all of these bytes. After a short write the rest is written. Where a write fails, or
/// takes none of them, a beginning of them was written, and it is not tried again.
pub fn send<W: Sink>(bytes: &[u8], sink: &mut W) -> Result<(), Device>
    requires countable { W.failed sink.old < 2 ^ 64 - 1 }
    ensures done { OnOk result
        (Appends (W.written sink.old) (W.written sink.new) bytes.now) }
    ensures stopped { OnErr result
        (AppendsBeginning (W.written sink.old) (W.written sink.new) bytes.now) }
    ensures none_failed { OnOk result (W.failed sink.new ≡ W.failed sink.old) }
    ensures one_failed { OnErr result (W.failed sink.new ≡ W.failed sink.old + 1) }
    ensures same_reference { W.reference sink.new ≡ W.reference sink.old }
{
    let mut rest = bytes;
    while !rest.is_empty() {
        match sink.write(rest) {
            Ok(taken) if taken > 0 => rest = &rest[taken..],
            _ => return Err(Device),
        }
    }
    Ok(())
}

/// `send` over a wire.
pub(super) fn send_over<W: Wire>(bytes: &[u8], wire: &mut W) -> Result<(), Device>
    requires countable { (W.known wire.old).failed_writes < 2 ^ 64 - 1 }
    ensures done { OnOk result (Sends W.steps wire.old wire.new bytes.now) }
    ensures stopped { OnErr result (SendsSome W.steps wire.old wire.new bytes.now) }
    ensures none_failed { OnOk result
        ((W.known wire.new).failed_writes ≡ (W.known wire.old).failed_writes) }
    ensures one_failed { OnErr result
        ((W.known wire.new).failed_writes ≡ (W.known wire.old).failed_writes + 1) }
{
    let mut rest = bytes;
    while !rest.is_empty() {
        match wire.write(rest) {
            Ok(sent) if sent > 0 => rest = &rest[sent..],
            _ => return Err(Device),
        }
    }
    Ok(())
}
