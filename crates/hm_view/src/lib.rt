// Draws a report as one page of HTML that needs nothing else. docs/VIEW.md has the lines of a page, specs/Page.antt
// their definition. The page is made in one pass over the history, by a world that goes on with it.
#![tactic(auto)]

mod asked;
mod call;
mod changes;
mod draw;
mod findings;
mod laws;
mod page;
mod process;
mod rows;
mod standing;

pub use asked::{Asked, MOST_ROWS};
pub use call::view;
pub use draw::{page_text, write_page};
pub use laws::{changes_are_told, each_change_is_told, legal_is_due, users_are_told};
pub use process::{NAME, USAGE, program};
