// What a skip rule says of the pages of migrations, as words worked out before: for a driver that answers for a page
// without asking its rule. The kernel's test driver has no such rule: it migrates every page of its span.
#![tactic(auto)]

mod words;

pub use words::{mask, masks};
