// What the entries of a report come to after its first bad line.
ghost use Rattle.std.specs.Prelude.{◌+◌, ◌^◌, ◌≤◌, length};

use hm_history::History;
use hm_parts::Rules;

/// What is said of the entries of a report after its first bad line.
#[derive(Drop)]
pub enum Later {
    /// They are not asked for, or the report is legal.
    Unasked,
    /// The bytes cannot be read to their end: this line, from 1, is the first that no report's text has there, be the
    /// report legal or not.
    Unread(u64),
    /// They were read to their end.
    Read(Followed),
}

/// The entries of a report, and which rules they keep.
#[derive(Drop)]
pub struct Followed {
    /// The number, from 1, of the line of the first entry.
    pub first: u64,
    pub history: History,
    /// Which rules each entry keeps after those before it, up to the first after which there is no state.
    pub rules: Vec<Rules>,
    ghost low: { first ≤ 2 ^ 63 + 2 },
    ghost few: { length history.entries ≤ 2000000 },
    ghost many: { length rules.items ≤ length history.entries },
}
