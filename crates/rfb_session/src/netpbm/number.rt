//! A number of a head, after blanks and comments.

ghost use Rattle.std.specs.Prelude.{◌≡◌, min, false, MatchOption};
ghost use Rattle.rfb_session.specs.netpbm.Number.{AreDigits, NextNumber, NoNumberNext, ends_line};
ghost use Rattle.rfb_session.specs.netpbm.Number.{is_blank, value_of};
ghost use Rattle.rfb_session.specs.netpbm.Gaps.{FirstDigits, after_gap};

// A number that is larger is as good as this one: both are too large.
const TOO_LARGE: u32 = 65_536;

/// The digits of the number that comes next, at least one and all of them, and what follows. It is
/// `None` where none does.
pub fn next_number(bytes: &[u8]) -> Option<(&[u8], &[u8])>
    ensures { MatchOption result (NoNumberNext bytes.now)
        (λ p. NextNumber bytes.now p.0.now p.1.now) }
{
    let (digits, rest) = first_digits(after_gap(bytes));
    if digits.is_empty() {
        return None;
    }
    Some((digits, rest))
}

/// The number that digits write, or 65,536 where it is larger.
pub fn number_of(digits: &[u8]) -> u32
    requires { AreDigits digits.now }
    ensures { result ≡ min (value_of digits.now) 65536 }
{
    let mut number: u32 = 0;
    for digit in digits {
        number = TOO_LARGE.min(10 * number + u32::from(*digit - b'0'));
    }
    number
}

/// Whether a byte parts two words.
pub fn is_blank(byte: u8) -> bool
    ensures { result ≡ is_blank byte }
{
    byte == b' ' || byte == b'\t' || ends_line(byte)
}

// Whether a comment ends with this byte.
fn ends_line(byte: u8) -> bool
    ensures { result ≡ ends_line byte }
{
    byte == b'\n' || byte == b'\r'
}

// What follows blanks and comments.
fn after_gap(bytes: &[u8]) -> &[u8]
    ensures { result.now ≡ after_gap false bytes.now }
{
    let mut is_comment = false;
    let mut rest = bytes;
    while let [byte, later @ ..] = rest {
        if is_comment {
            is_comment = !ends_line(*byte);
        } else if *byte == b'#' {
            is_comment = true;
        } else if !is_blank(*byte) {
            return rest;
        }
        rest = later;
    }
    rest
}

// The digits at the front, and what follows.
fn first_digits(bytes: &[u8]) -> (&[u8], &[u8])
    ensures { FirstDigits bytes.now result.0.now result.1.now }
{
    for (count, byte) in bytes.iter().enumerate() {
        if !byte.is_ascii_digit() {
            return bytes.split_at(count);
        }
    }
    (bytes, &[])
}
