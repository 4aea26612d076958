// The shortest races of a driver that leaves a rule out: the search for them, and what it says.
#![tactic(auto)]

mod answer;
mod differing;
mod finding;
mod firsts;
mod goals;
mod keys;
mod owed;
mod played;
mod race;
mod same_entries;
mod search;
mod stuck;

pub use answer::{Answer, Found, Owed};
pub use keys::StandingKey;
pub use race::FlawRace;
pub use search::find_race;
