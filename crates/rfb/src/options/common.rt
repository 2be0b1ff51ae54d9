//! Words that several commands have.

use crate::options::usage::{Mark, Takes, Word, long};

/// A port that has to be given.
pub const PORT: Word<'static> = long!(
    "port",
    Takes::Needed("P", u16::MAX as u32),
    "The port, 1 to 65535"
);

/// An address to listen on.
pub const LISTEN: Word<'static> = long!(
    "listen",
    Takes::TextOr("ADDRESS", "127.0.0.1"),
    "The address that is listened on; 0.0.0.0 is all of IPv4"
);

/// A format.
pub const FORMAT: Word<'static> = long!(
    "format",
    Takes::TextOr("F", "rgb888"),
    "The format of pixels, from the first update on: rgb888, rgb565, bgr233 or rgb101010"
);

/// The encodings that are asked for.
pub const ALL_ENCODINGS: Word<'static> = long!(
    "encodings",
    Takes::TextOr("E", "copyrect,hextile,rre,raw"),
    "One to four of raw, copyrect, rre and hextile with commas, the best first"
);

/// Whether what has come by an early end is wanted.
pub const PARTIAL: Word<'static> = long!(
    "partial",
    Takes::Nothing,
    "At an early end, writes the picture of what has come; the status is still 1"
);

/// The file that is read.
pub const INPUT: Word<'static> = Word {
    name: "input",
    mark: Mark::LongOr('i'),
    takes: Takes::Text("FILE"),
    help: "Reads this file in place of standard input",
};

/// The file that is written.
pub const OUTPUT: Word<'static> = Word {
    name: "output",
    mark: Mark::LongOr('o'),
    takes: Takes::Text("FILE"),
    help: "Writes this file in place of standard output, whole or not at all",
};

/// How many viewers there are at once at most.
pub const MOST_VIEWERS: u16 = 8;

/// How many viewers there may be at once.
pub const VIEWERS: Word<'static> = long!(
    "viewers",
    Takes::NumberOr("N", MOST_VIEWERS as u32, "8"),
    "How many viewers there may be at once, 1 to 8"
);

/// Whether all ends with the last viewer.
pub const UNTIL_IDLE: Word<'static> = long!(
    "until-idle",
    Takes::Nothing,
    "Ends once viewers came and the last of them has gone"
);

/// How long a viewer's handshake may take.
pub const HANDSHAKE: Word<'static> = long!(
    "handshake",
    Takes::NumberOr("S", u32::MAX, "10"),
    "The seconds that a viewer's handshake may take, 1 to 4294967295"
);

/// How long bytes may wait for a viewer.
pub const PATIENCE: Word<'static> = long!(
    "timeout",
    Takes::Number("S", u32::MAX),
    "The seconds that bytes may wait for a viewer that takes and sends none, 1 to 4294967295"
);

/// Whether no viewer has the screen alone.
pub const ALWAYS_SHARED: Word<'static> = long!(
    "always-shared",
    Takes::Nothing,
    "Lets no viewer have the screen alone"
);

/// Whether there are no sentences.
pub const QUIET: Word<'static> = long!(
    "quiet",
    Takes::Nothing,
    "Writes no sentences to standard error"
);
