//! The numbers of a script.

ghost use Rattle.std.specs.Prelude.{◌≡◌, MatchOption};
ghost use Rattle.std.specs.Str.Parse.{digits_value};
ghost use Rattle.rfb_session.specs.language.Number.{AreFewDigits, IsCount, IsNumber};

// More digits make a word no number, whatever their value.
const DIGITS_MAX: usize = 10;

/// The value of 1 to 10 decimal digits, leading zeros among them. It is `None` where the word is
/// anything else, or its value is above 65,535.
pub fn read_number(word: &[u8]) -> Option<u16>
    ensures { MatchOption result (¬ (IsNumber word.now))
        (λ n. IsNumber word.now × (n ≡ digits_value 10 word.now)) }
{
    u16::try_from(read_digits(word)?).ok()
}

/// The same up to 4,294,967,295.
pub fn read_count(word: &[u8]) -> Option<u32>
    ensures { MatchOption result (¬ (IsCount word.now))
        (λ n. IsCount word.now × (n ≡ digits_value 10 word.now)) }
{
    u32::try_from(read_digits(word)?).ok()
}

// The same without a bound. `parse` would take a plus sign, and any number of zeros.
fn read_digits(word: &[u8]) -> Option<u64>
    ensures { MatchOption result (¬ (AreFewDigits word.now))
        (λ n. AreFewDigits word.now × (n ≡ digits_value 10 word.now)) }
{
    if word.is_empty() || word.len() > DIGITS_MAX {
        return None;
    }
    let mut value = 0;
    for byte in word {
        if !byte.is_ascii_digit() {
            return None;
        }
        value = 10 * value + u64::from(*byte - b'0');
    }
    Some(value)
}
