// The top call: a script is read, and shortest races of it are written in which a driver that leaves a rule out does
// what it must not do.
#![tactic(auto)]

mod call;
mod ending;
mod laws;
mod process;
mod text;
mod told;

pub use call::without;
pub use laws::users_are_told;
pub use process::{NAME, USAGE, program};
