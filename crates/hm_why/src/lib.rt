// Where each byte of a load came from: the entry of a history that gave it its value.
#![tactic(auto)]

mod changes;
mod laws;
mod one_load;
mod text;
mod writers;

pub use changes::Changes;
pub use laws::{loads_have_sources, loads_lie_in_a_page};
pub use one_load::{Sources, sources};
pub use text::{why_text, write_why};
