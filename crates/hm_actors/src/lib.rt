// How far each actor is in its operations: the number of its operation, its stack of phases (hm_phases), and the
// records of its migration (`struct migrate_vma` of include/linux/migrate.h), which stand in a slab of all migrations
// under way.
#![tactic(auto)]

mod actors;
mod coming;
mod places;
mod records;
mod tasks;
mod under_way;

pub use actors::Actors;
pub use coming::{Concerns, come_to};
pub use records::Records;
pub use tasks::op_at;
