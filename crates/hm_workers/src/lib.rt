// Workers that make the turns of all actors.
#![tactic(auto)]

mod burst;
mod dealing;
mod gate;
mod glances;
mod meeting;
mod mixing;
mod passes;
mod peeked;
mod peeks;
mod places;
mod run;
mod staged;
mod watching;
mod workers;

pub use dealing::{deal, gather};
pub use gate::Gate;
pub use mixing::Mixing;
pub use passes::Passes;
pub use peeked::run_peeked;
pub use peeks::{Peek, PeekList};
pub use run::{peek_all, run_all};
pub use staged::Staged;
pub use workers::run_actors;
