// Frames of memory: which are held, what they contain and who has them locked (`alloc_page` of include/linux/gfp.h,
// `put_page` of include/linux/mm.h, `trylock_page` of include/linux/pagemap.h).
#![tactic(auto)]

pub mod bits;
mod bytes;
mod frame_bytes;
mod growing;
mod number_set;
mod parts;
mod pool;
mod pool_bytes;

pub use pool::{Held, Piece, Pool, copy_across};
