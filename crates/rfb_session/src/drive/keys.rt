//! Keys by their names, and keys that go down together.

ghost use Rattle.std.specs.Prelude.{◌≡◌, ◌≤◌, ℕ, List, length, IsTrue, MatchOption};
ghost use Rattle.rfb_session.specs.drive.Characters.{only_char};
ghost use Rattle.rfb_session.specs.drive.Keys as spec;
ghost use Rattle.rfb_session.specs.drive.Keys.{AreKeys, IsCombination, pressing};
ghost use Rattle.rfb_session.specs.language.Words.{texts};

use crate::drive::key_event::KeyEvent;
use crate::drive::names::key_named;
use crate::drive::typing::key_of_char;
use crate::language::pieces;
use arrayvec::ArrayVec;
use std::str;

/// No more keys go down together.
pub const KEYS_MAX: usize = 8;

const EVENTS_MAX: usize = 2 * KEYS_MAX;

const HYPHEN: u8 = b'-';

// More digits make a word no number.
const DIGITS_MAX: usize = 8;

/// The key of a name. One character names its own key, a number such as `0xFF0D` the key of that
/// value, and any other name the one that the tables have.
pub fn key_of(name: &[u8]) -> Option<u32>
    ensures { result ≡ spec.key_of name.now }
{
    if let Some(character) = only_char(name) {
        return key_of_char(character);
    }
    if is_number(name) {
        return read_hex(&name[2..]);
    }
    key_named(name)
}

// The one character that a word is.
fn only_char(word: &[u8]) -> Option<char>
    ensures { result ≡ only_char word.now }
{
    let text = str::from_utf8(word).ok()?;
    let mut only = None;
    for character in text.chars() {
        if only.is_some() {
            return None;
        }
        only = Some(character);
    }
    only
}

// Whether a name begins as a number does.
fn is_number(name: &[u8]) -> bool
    ensures value { result ≡ spec.is_number name.now }
    ensures long { IsTrue result → 2 ≤ length name.now }
{
    name.len() >= 2 && name[0] == b'0' && name[1] == b'x'
}

// The value of one to eight hexadecimal digits.
fn read_hex(digits: &[u8]) -> Option<u32>
    ensures { result ≡ spec.hex_number digits.now }
{
    if digits.is_empty() || digits.len() > DIGITS_MAX {
        return None;
    }
    let mut value = 0;
    for byte in digits {
        let digit = char::from(*byte).to_digit(16)?;
        value = 16 * value + digit;
    }
    Some(value)
}

/// The keys of a word, in the order in which they go down: their names are parted by hyphens.
pub fn read_combination(word: &[u8]) -> Option<ArrayVec<u32, KEYS_MAX>>
    ensures { MatchOption result ((keys : List ℕ) → ¬ (IsCombination word.now keys))
        (λ keys. IsCombination word.now keys.items) }
{
    if word.len() == 1 {
        return keys_of(&[word]);
    }
    keys_of(pieces(word, HYPHEN)?.as_slice())
}

// The keys of names.
fn keys_of(names: &[&[u8]]) -> Option<ArrayVec<u32, KEYS_MAX>>
    ensures { MatchOption result ((keys : List ℕ) → ¬ (AreKeys (texts names.now) keys))
        (λ keys. AreKeys (texts names.now) keys.items) }
{
    let mut keys = ArrayVec::new();
    for name in names {
        keys.try_push(key_of(name)?).ok()?;
    }
    Some(keys)
}

/// What happens to the keys: they go down one after another, and up in the reverse order.
pub fn pressing(keys: &[u32]) -> ArrayVec<KeyEvent, EVENTS_MAX>
    requires { length keys.now ≤ 8 }
    ensures { result.items ≡ pressing keys.now }
{
    let mut events = ArrayVec::new();
    for key in keys {
        events.push(KeyEvent::down(*key));
    }
    let mut left = keys.len();
    while left > 0 {
        left -= 1;
        events.push(KeyEvent::up(keys[left]));
    }
    events
}
