//! What both ends of one connection send, by RFC 6143.

// A viewer: ProtocolVersion, the security type None, ClientInit, and a request for 2 by 1 places.
pub const CLIENT: &[u8] = b"RFB 003.008\n\x01\x01\x03\0\0\0\0\0\0\x02\0\x01";

// A request for what changed of them.
pub const NEXT_REQUEST: &[u8] = b"\x03\x01\0\0\0\0\0\x02\0\x01";

// The server's handshake: ProtocolVersion, security types, SecurityResult, and ServerInit with a
// screen of 2 by 1, the format rgb888, and the name `rfb`.
pub const HANDSHAKE: &[u8] = b"RFB 003.008\n\x01\x01\0\0\0\0\0\x02\0\x01\x20\x18\0\x01\
\0\xFF\0\xFF\0\xFF\x10\x08\0\0\0\0\0\0\0\x03rfb";

// Its update: one rectangle, Raw, black and (1028, 0, 514).
pub const UPDATE: &[u8] = b"\0\0\0\x01\0\0\0\0\0\x02\0\x01\0\0\0\0\0\0\0\0\x02\0\x04\0";

// One where both places are (65535, 0, 4112).
pub const RED_UPDATE: &[u8] = b"\0\0\0\x01\0\0\0\0\0\x02\0\x01\0\0\0\0\x10\0\xFF\0\x10\0\xFF\0";

// One where both are (0, 65535, 8224).
pub const GREEN_UPDATE: &[u8] = b"\0\0\0\x01\0\0\0\0\0\x02\0\x01\0\0\0\0\x20\xFF\0\0\x20\xFF\0\0";

// ServerCutText with `ABCDE`.
pub const CUT_TEXT: &[u8] = b"\x03\0\0\0\0\0\0\x05ABCDE";

// What a viewer sends that asks once, in rgb888 and Raw: ProtocolVersion, the security type None,
// ClientInit, SetPixelFormat, SetEncodings, and a request for 2 by 1 places.
pub const VIEWER: &[u8] = b"RFB 003.008\n\x01\x01\0\0\0\0\x20\x18\0\x01\0\xFF\0\xFF\0\xFF\
\x10\x08\0\0\0\0\x02\0\0\x01\0\0\0\0\x03\0\0\0\0\0\0\x02\0\x01";
