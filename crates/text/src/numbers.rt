// Numbers, decimal or after `0x` hexadecimal.
ghost use Rattle.std.specs.Prelude.{◌≡◌, ◌<◌, ◌≤◌};
ghost use Rattle.std.specs.Option.{option_map};
ghost use Rattle.text.specs.Kept.{kept, kept_integer};
ghost use Rattle.text.specs.Numerals.{digits_value, natural_of, integer_of, unsigned_of, signed_of};

use crate::fault::Fault;

// Past every range that can be asked for. A larger value is kept as this one, so a text may be of any length.
const PAST: u64 = 1 << 32;

// The value of one digit or more.
fn digits_value(base: u32, digits: &[u8]) -> Option<u64>
    requires some { 2 ≤ base }
    requires few { base ≤ 16 }
    ensures { result ≡ option_map kept (digits_value base digits.now) }
{
    if digits.is_empty() {
        return None;
    }
    let mut value = 0;
    for byte in digits {
        let digit = char::from(*byte).to_digit(base)?;
        value = (value * u64::from(base) + u64::from(digit)).min(PAST);
    }
    Some(value)
}

// The value of a word with no sign.
fn natural(word: &[u8]) -> Option<u64>
    ensures { result ≡ option_map kept (natural_of word.now) }
{
    match word {
        [b'0', b'x', digits @ ..] => digits_value(16, digits),
        _ => digits_value(10, word),
    }
}

// The value of a word with or without a minus sign, which stands before decimal digits only.
fn integer(word: &[u8]) -> Option<i64>
    ensures { result ≡ option_map kept_integer (integer_of word.now) }
{
    match word {
        [b'-', digits @ ..] => Some(-(digits_value(10, digits)? as i64)),
        _ => Some(natural(word)? as i64),
    }
}

// The number from 0 to `highest` that the word is.
pub fn unsigned(word: &[u8], highest: u32) -> Result<u32, Fault>
    ensures { result ≡ unsigned_of highest word.now }
{
    let value = natural(word).ok_or(Fault::NotANumber)?;
    if value > u64::from(highest) {
        return Err(Fault::OutOfRange);
    }
    Ok(value as u32)
}

// The number from `lowest` to `highest` that the word is.
pub fn signed(word: &[u8], lowest: i32, highest: i32) -> Result<i32, Fault>
    ensures { result ≡ signed_of lowest highest word.now }
{
    let value = integer(word).ok_or(Fault::NotANumber)?;
    if !(i64::from(lowest)..=i64::from(highest)).contains(&value) {
        return Err(Fault::OutOfRange);
    }
    Ok(value as i32)
}
