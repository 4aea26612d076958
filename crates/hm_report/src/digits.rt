// Bytes and decimal digits, written into a block. Each of these says where what it wrote ends.
ghost use Rattle.std.specs.Prelude.{◌≡◌, ◌+◌, ◌*◌, ◌/◌, ◌%◌, ◌≤◌, ◌<◌, ◌∷◌, ◌++◌, [], length, take};
ghost use Rattle.std.specs.Fmt.{decimal};
ghost use Rattle.hm_report.specs.Words.{pair_text};

/// Writes one byte.
#[inline(always)]
pub(crate) fn put_at(block: &mut [u8], at: usize, byte: u8) -> usize
    requires { at < length block.old }
    ensures text { take (at + 1) block.new ≡ take at block.old ++ byte ∷ [] }
    ensures end { result ≡ at + 1 }
    ensures len { length block.new ≡ length block.old }
{
    block[at] = byte;
    at + 1
}

/// Writes some bytes. A few that are known at the call are stored as a word or two, without a call.
#[inline(always)]
pub(crate) fn put_bytes(block: &mut [u8], at: usize, bytes: &[u8]) -> usize
    requires { at + length bytes.now ≤ length block.old }
    ensures text { take result block.new ≡ take at block.old ++ bytes.now }
    ensures end { result ≡ at + length bytes.now }
    ensures len { length block.new ≡ length block.old }
{
    let mut end = at;
    for byte in bytes {
        end = put_at(block, end, *byte);
    }
    end
}

/// Writes the two digits of a number below 100.
#[inline(always)]
#[tactic(auto, using(std::proofs::Common::append_assoc))]
fn put_pair(block: &mut [u8], at: usize, number: u64) -> usize
    requires few { number < 100 }
    requires room { at + 2 ≤ length block.old }
    ensures text { take result block.new ≡ take at block.old ++ pair_text number }
    ensures end { result ≡ at + 2 }
    ensures len { length block.new ≡ length block.old }
{
    let end = put_at(block, at, b'0' + (number / 10) as u8);
    put_at(block, end, b'0' + (number % 10) as u8)
}

/// Writes a number below 100.
#[inline(always)]
fn put_short(block: &mut [u8], at: usize, number: u64) -> usize
    requires few { number < 100 }
    requires room { at + length (decimal number) ≤ length block.old }
    ensures text { take result block.new ≡ take at block.old ++ decimal number }
    ensures end { result ≡ at + length (decimal number) }
    ensures len { length block.new ≡ length block.old }
{
    if number >= 10 {
        put_pair(block, at, number)
    } else {
        put_at(block, at, b'0' + number as u8)
    }
}

/// Writes a number below 10000.
#[inline(always)]
fn put_few(block: &mut [u8], at: usize, number: u64) -> usize
    requires few { number < 10000 }
    requires room { at + length (decimal number) ≤ length block.old }
    ensures text { take result block.new ≡ take at block.old ++ decimal number }
    ensures end { result ≡ at + length (decimal number) }
    ensures len { length block.new ≡ length block.old }
{
    if number >= 100 {
        let end = put_short(block, at, number / 100);
        put_pair(block, end, number % 100)
    } else {
        put_short(block, at, number)
    }
}

/// Writes any number, two digits at a time.
#[inline(never)]
fn put_long(block: &mut [u8], at: usize, number: u64) -> usize
    requires { at + length (decimal number) ≤ length block.old }
    ensures text { take result block.new ≡ take at block.old ++ decimal number }
    ensures end { result ≡ at + length (decimal number) }
    ensures len { length block.new ≡ length block.old }
{
    if number >= 100 {
        let end = put_long(block, at, number / 100);
        put_pair(block, end, number % 100)
    } else {
        put_short(block, at, number)
    }
}

/// Writes a number with at most four digits before its last four, as all but a few of a report are.
#[inline(never)]
fn put_many(block: &mut [u8], at: usize, number: u64) -> usize
    requires { at + length (decimal number) ≤ length block.old }
    ensures text { take result block.new ≡ take at block.old ++ decimal number }
    ensures end { result ≡ at + length (decimal number) }
    ensures len { length block.new ≡ length block.old }
{
    if number < 10_000 {
        put_few(block, at, number)
    } else if number < 100_000_000 {
        let front = put_few(block, at, number / 10_000);
        let end = put_pair(block, front, number / 100 % 100);
        put_pair(block, end, number % 100)
    } else {
        put_long(block, at, number)
    }
}

/// Writes a number. Most of a report have one digit, and are written without a call.
#[inline(always)]
pub(crate) fn put_digits(block: &mut [u8], at: usize, number: u64) -> usize
    requires { at + length (decimal number) ≤ length block.old }
    ensures text { take result block.new ≡ take at block.old ++ decimal number }
    ensures end { result ≡ at + length (decimal number) }
    ensures len { length block.new ≡ length block.old }
{
    if number < 10 {
        put_at(block, at, b'0' + number as u8)
    } else {
        put_many(block, at, number)
    }
}
