// Bytes of frames in one block of memory.
ghost use Rattle.std.specs.Prelude.{◌≡◌, ℕ, ◌+◌, ◌-◌, ◌≤◌, ◌<◌, ◌^◌, ◌++◌, length, replicate, vec_capacity};
ghost use Rattle.frame_pool.specs.Frames.{overwritten, padded, part_of};

/// The bytes of a frame.
pub const FRAME_BYTES: usize = 4096;

/// Fills `into` with the bytes from `at` on, and with zeros if there are none.
pub(crate) fn read(bytes: &[u8], at: usize, into: &mut [u8])
    requires { at + length into.old < 2 ^ 64 }
    ensures { into.new ≡ padded (part_of bytes.now at (length into.old)) (length into.old) }
{
    let end = (at + into.len()).min(bytes.len());
    let start = at.min(end);
    let (there, past) = into.split_at_mut(end - start);
    there.copy_from_slice(&bytes[start..end]);
    past.fill(0);
}

/// Writes the bytes over those from `at` on.
pub(crate) fn overwrite(bytes: &mut Vec<u8>, at: usize, from: &[u8])
    requires { at + length from.now ≤ length bytes.old.items }
    ensures items { bytes.new.items ≡ overwritten bytes.old.items at from.now }
    ensures capacity { vec_capacity bytes.new ≡ vec_capacity bytes.old }
{
    bytes[at..at + from.len()].copy_from_slice(from);
}

/// Writes this many bytes of another block from `from` on over those from `at` on, and zeros if it has none.
pub(crate) fn read_over(bytes: &mut Vec<u8>, at: usize, count: usize, source: &[u8], from: usize)
    requires target { at + count ≤ length bytes.old.items }
    requires source { from + count < 2 ^ 64 }
    ensures items { bytes.new.items ≡ overwritten bytes.old.items at (padded (part_of source.now from count) count) }
    ensures capacity { vec_capacity bytes.new ≡ vec_capacity bytes.old }
{
    read(source, from, &mut bytes[at..at + count]);
}

/// Writes this many zeros over the bytes from `at` on.
pub(crate) fn overwrite_by_zeros(bytes: &mut Vec<u8>, at: usize, count: usize)
    requires { at + count ≤ length bytes.old.items }
    ensures items { bytes.new.items ≡ overwritten bytes.old.items at (replicate count 0) }
    ensures capacity { vec_capacity bytes.new ≡ vec_capacity bytes.old }
{
    bytes[at..at + count].fill(0);
}

/// Copies this many bytes from `at` on over those from `to` on.
pub(crate) fn copy(bytes: &mut Vec<u8>, at: usize, to: usize, count: usize)
    requires source { at + count ≤ length bytes.old.items }
    requires target { to + count ≤ length bytes.old.items }
    ensures items { bytes.new.items ≡ overwritten bytes.old.items to (part_of bytes.old.items at count) }
    ensures capacity { vec_capacity bytes.new ≡ vec_capacity bytes.old }
{
    if at + count <= to {
        copy_up(bytes, at, to, count);
    } else if to + count <= at {
        copy_down(bytes, at, to, count);
    } else {
        bytes.copy_within(at..at + count, to);
    }
}

// The bytes lie apart, so that they are copied as a block and not one by one.
fn copy_up(bytes: &mut [u8], at: usize, to: usize, count: usize)
    requires apart { at + count ≤ to }
    requires target { to + count ≤ length bytes.old }
    ensures { bytes.new ≡ overwritten bytes.old to (part_of bytes.old at count) }
{
    let (low, high) = bytes.split_at_mut(to);
    high[..count].copy_from_slice(&low[at..at + count]);
}

fn copy_down(bytes: &mut [u8], at: usize, to: usize, count: usize)
    requires apart { to + count ≤ at }
    requires source { at + count ≤ length bytes.old }
    ensures { bytes.new ≡ overwritten bytes.old to (part_of bytes.old at count) }
{
    let (low, high) = bytes.split_at_mut(at);
    low[to..to + count].copy_from_slice(&high[..count]);
}
