// The state of a race of drivers with a flaw, as values that a search copies, changes by one entry, and compares:
// exactly as the definitions have them. The files, in four parts, each over those before it:
// - what a driver has of its own, kept entry by entry: details, frame_bytes, late_spans, own_tables, owns, kept_owns;
// - the state as its actors find it, and what is due to them: found, held_locks, due;
// - the state that the history gives, before the first entry and after each: state and its parts, joined, start,
//   next;
// - the key that a search keeps of these, with marks and entries by which the parts of legality are judged: key,
//   judging, set_ups, turns, same_keys, trail.
#![tactic(auto)]

pub mod buckets;
pub mod commits;
pub mod compare;
pub mod details;
mod due;
pub mod exact_seqs;
pub mod found;
pub mod frame_bytes;
mod goings;
mod groups;
pub mod guards;
mod held_locks;
pub mod here;
mod joined;
mod judging;
pub mod kept_owns;
pub mod key;
pub mod late_spans;
pub mod next;
pub mod own_tables;
pub mod owns;
pub mod parts;
pub mod placed;
pub mod placing;
mod same_keys;
mod same_parts;
mod seen;
mod set_ups;
mod stacks;
pub mod start;
pub mod state;
mod steps;
mod trail;
mod turns;

pub use due::due_by;
pub use set_ups::first_key;
pub use turns::next_key;
