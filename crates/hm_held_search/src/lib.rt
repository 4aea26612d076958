// Searches of the orders of turns that keep some holds, and the few holds with which every order goes wrong.
#![tactic(auto)]

mod dead;
mod events;
mod finding;
mod keys;
mod race;
mod race_holds;
mod text;
mod tried;

pub use events::{Event, first_holds};
pub use finding::{FoundHolds, find_holds};
pub use keys::HeldKey;
pub use race::HeldRace;
pub use race_holds::holds_of_race;
pub use text::{add_found, word_name, words_are_of_entries};
pub use tried::{Tried, try_holds};
