// The pools of a world: the frames of the system and of the devices (`struct page` of zones and of a `dev_pagemap`,
// with `PG_locked`). They keep step with a history, entry by entry: each call is a definition of specs/Pools, and
// proofs/ has that they go on showing what hm_history's definitions give.
#![tactic(auto)]

mod one_pool;
mod pools;

pub use pools::FramePools;
