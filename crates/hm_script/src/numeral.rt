// Numbers, addresses and bytes, as words spell them.

ghost use Rattle.std.specs.Prelude.{◌≡◌, ◌+◌, ◌*◌, ◌<◌, ◌≤◌, ◌^◌, ◌∷◌, true, ℕ, List, IfSome, IfNone, SomeIff};
ghost use Rattle.std.specs.Char.{digit_value};
ghost use Rattle.std.specs.Str.Parse.{digits_value};
ghost use Rattle.hm_script.specs.Gives.{Gives};
ghost use Rattle.hm_script.specs.Numerals.{is_low_digit, IsNumeralBelow, IsNumeral, number, address, hex, right};

use crate::reason::{LineError, Reason};
use hm_base::{Bytes, Rights};
use std::alloc::Global;

/// The value of a digit in the base, of `0` to `9` and `a` to `f`.
fn digit(byte: u8, base: u64) -> Option<u64>
    requires { base ≤ 16 }
    ensures { SomeIff result (is_low_digit base byte ≡ true) (digit_value byte) }
{
    let value = match byte {
        b'0'..=b'9' => byte - b'0',
        b'a'..=b'f' => byte - b'a' + 10,
        _ => return None,
    };
    let value = u64::from(value);
    if value < base { Some(value) } else { None }
}

/// The number that one more digit at its end makes, if it is below 2^64.
fn with_digit(value: u64, base: u64, digit: u64) -> Option<u64>
    ensures { SomeIff result (value * base + digit < 2 ^ 64) (value * base + digit) }
{
    value.checked_mul(base)?.checked_add(digit)
}

/// The number below 2^64 that the digits write.
fn value_of(digits: &[u8], base: u64) -> Option<u64>
    requires low { 2 ≤ base }
    requires high { base ≤ 16 }
    ensures { SomeIff result (IsNumeralBelow base (2 ^ 64) digits.now) (digits_value base digits.now) }
{
    let mut value: u64 = 0;
    for byte in digits {
        let digit = digit(*byte, base)?;
        value = with_digit(value, base, digit)?;
    }
    Some(value)
}

/// The number below 2^64 that the word writes without leading zeros.
fn numeral(word: &[u8], base: u64) -> Option<u64>
    requires low { 2 ≤ base }
    requires high { base ≤ 16 }
    ensures { SomeIff result (IsNumeral base word.now) (digits_value base word.now) }
{
    match word {
        [] => None,
        [b'0', _, ..] => None,
        _ => value_of(word, base),
    }
}

/// Reads a decimal number, without leading zeros, below 2^64.
pub fn number(word: &[u8]) -> Result<u64, Reason>
    ensures { result ≡ number word.now }
{
    match numeral(word, 10) {
        Some(n) => Ok(n),
        None => Err(Reason::Number),
    }
}

/// What follows `0x`.
fn after_prefix(word: &[u8]) -> Option<&[u8]>
    ensures some { IfSome result (λ digits. word.now ≡ 48 ∷ 120 ∷ digits.now) }
    ensures none { IfNone result ((digits : List ℕ) → word.now ≡ 48 ∷ 120 ∷ digits → ⊥) }
{
    word.strip_prefix(b"0x".as_slice())
}

/// Reads an address: `0x` and hexadecimal digits in lower case, without leading zeros, below 2^64.
pub fn address(word: &[u8]) -> Result<u64, Reason>
    ensures { result ≡ address word.now }
{
    let Some(digits) = after_prefix(word) else {
        return Err(Reason::Number);
    };
    match numeral(digits, 16) {
        Some(n) => Ok(n),
        None => Err(Reason::Number),
    }
}

/// The byte that two hexadecimal digits write.
fn pair(high: u8, low: u8) -> Option<u8>
    ensures { SomeIff result ((is_low_digit 16 high ≡ true) × (is_low_digit 16 low ≡ true))
        (16 * digit_value high + digit_value low) }
{
    let high = digit(high, 16)?;
    let low = digit(low, 16)?;
    Some((16 * high + low) as u8)
}

/// Reads pairs of hexadecimal digits.
pub(crate) fn hex(alloc: Global, word: &[u8]) -> Result<Bytes, LineError>
    ensures { Gives (λ bytes. bytes) result (hex word.now) }
{
    let mut bytes = Bytes::new(alloc);
    let mut rest = word;
    while let [high, low, after @ ..] = rest {
        let Some(byte) = pair(*high, *low) else {
            return Err(LineError::Bad(Reason::Number));
        };
        bytes.push(byte)?;
        rest = after;
    }
    if !rest.is_empty() {
        return Err(LineError::Bad(Reason::Number));
    }
    Ok(bytes)
}

/// Reads what an area allows.
#[tactic(auto, unfolding(crate::specs::Numerals::right))]
pub(crate) fn right(word: &[u8]) -> Result<Rights, Reason>
    ensures { result ≡ right word.now }
{
    if word == b"r".as_slice() {
        return Ok(Rights::Read);
    }
    if word == b"rw".as_slice() {
        return Ok(Rights::ReadWrite);
    }
    Err(Reason::Number)
}
