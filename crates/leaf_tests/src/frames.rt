// What the tests of frames ask first.
ghost use Rattle.std.specs.Prelude.{◌≡◌};
ghost use Rattle.frame_pool.specs.Frames.{is_held};

use frame_pool::Pool;

/// Whether the frame is held.
pub fn is_held(pool: &Pool, number: u32) -> bool
    ensures { result ≡ is_held pool.now number }
{
    pool.held_at_or_after(number) == Some(number)
}
