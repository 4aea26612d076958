// What is due to an actor with variants of the memory manager: decided from reads alone, as by hm_steps.
#![tactic(auto)]

mod area_lists;
mod areas;
mod attaching;
mod changes;
mod deciding;
mod due;
mod first;
mod found;
mod gone;
mod guarding;
mod led;
mod locking;
mod moving;
mod notes;
mod noting;
mod shows;
mod snapshots;
mod varied;

pub use due::due_as;
pub use led::{Led, leads};
pub use notes::Notes;
pub use noting::{notes_after, shared_after};
pub use shows::Shows;
