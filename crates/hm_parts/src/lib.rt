// Which parts of legality entries meet: all of what a legal history asks of its next entry, and of any history, in one
// pass, the rules of memory that each of its entries keeps.
#![tactic(auto)]

mod all_entries;
mod answers;
mod findings;
mod follower;
mod frames;
mod guarded;
mod kept;
mod laws;
mod parts;
mod pasts;
mod rules;
mod sets;
mod show_answers;
mod show_kept;
mod show_places;
mod show_sequences;
mod shown;

pub use all_entries::follow;
pub use answers::has_taken;
pub use findings::{Findings, find};
pub use follower::Follower;
pub use frames::{is_finishing, is_no_frame, needs_full};
pub use guarded::loses;
pub use kept::meets_kept;
pub use laws::{may_follow, shown_sequences_are_right};
pub use parts::Parts;
pub use pasts::is_told_by;
pub use rules::Rules;
pub use shown::{Shown, ShownParts};
