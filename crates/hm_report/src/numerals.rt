// Digits, written into a buffer.
ghost use Rattle.std.specs.Prelude.{◌≡◌, ◌+◌, ◌≤◌, ◌<◌, ◌∷◌, ◌++◌, [], false, length, drop};
ghost use Rattle.std.specs.Fmt.{decimal, digit_glyph, digits};
ghost use Rattle.hm_script.specs.Spelling.{address_text};
ghost use Rattle.hm_report.specs.Words.{byte_text, pair_text};

use crate::buffer::{Buffer, ROOM};

/// The most digits that a numeral has here.
const DIGITS: usize = 64;

/// The digit `0` to `9` or `a` to `f` of the value.
#[inline(always)]
pub fn digit(value: u8) -> u8
    requires { value < 16 }
    ensures { result ≡ digit_glyph false value }
{
    if value < 10 {
        b'0' + value
    } else {
        b'a' + (value - 10)
    }
}

/// Writes the number's digits at the end, and says where they begin.
#[inline(always)]
fn digits_at_end(base: u64, number: u64, into: &mut [u8; DIGITS]) -> usize
    requires low { 2 ≤ base }
    requires high { base ≤ 16 }
    ensures within { result ≤ DIGITS }
    ensures text { drop result into.new ≡ digits base false number }
{
    let mut at = DIGITS;
    let mut left = number;
    while at > 0 {
        at -= 1;
        into[at] = digit((left % base) as u8);
        left /= base;
        if left == 0 {
            return at;
        }
    }
    0
}

/// Adds a few bytes and the number.
#[inline(always)]
#[tactic(auto, using(std::proofs::Common::append_assoc))]
pub fn put_decimal(out: &mut Buffer, lead: &[u8], number: u64)
    requires { length out.old + length lead.now + DIGITS ≤ ROOM }
    ensures text { out.new ≡ out.old ++ (lead.now ++ decimal number) }
    ensures room { length out.new ≤ length out.old + length lead.now + DIGITS }
{
    out.put(lead);
    out.put_number(number);
}

/// Adds a space and the number.
#[inline(always)]
pub(crate) fn put_spaced(out: &mut Buffer, number: u64)
    requires { length out.old + 1 + DIGITS ≤ ROOM }
    ensures text { out.new ≡ out.old ++ 32 ∷ decimal number }
    ensures room { length out.new ≤ length out.old + 1 + DIGITS }
{
    out.put_spaced(number);
}

/// Adds a space, a letter and the number.
#[inline(always)]
pub(crate) fn put_lettered(out: &mut Buffer, letter: u8, number: u64)
    requires { length out.old + 2 + DIGITS ≤ ROOM }
    ensures text { out.new ≡ out.old ++ 32 ∷ letter ∷ decimal number }
    ensures room { length out.new ≤ length out.old + 2 + DIGITS }
{
    out.put_lettered(letter, number);
}

/// Adds a space and the address.
pub(crate) fn put_address(out: &mut Buffer, address: u64)
    requires { length out.old + 3 + DIGITS ≤ ROOM }
    ensures text { out.new ≡ out.old ++ 32 ∷ address_text address }
    ensures room { length out.new ≤ length out.old + 3 + DIGITS }
{
    let mut digits = [0; DIGITS];
    let at = digits_at_end(16, address, &mut digits);
    out.put(b" 0x");
    out.put(&digits[at..]);
}

/// Adds the two digits of a byte.
#[inline(always)]
pub(crate) fn put_byte(out: &mut Buffer, byte: u8)
    requires { length out.old + 2 ≤ ROOM }
    ensures { out.new ≡ out.old ++ byte_text byte }
{
    out.push(digit(byte / 16));
    out.push(digit(byte % 16));
}
