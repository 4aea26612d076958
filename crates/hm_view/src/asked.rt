// Which rows the words after the program's name ask for.
ghost use Rattle.std.specs.Prelude.{◌≡◌, ◌≤◌, map, string_bytes};
ghost use Rattle.hm_view.specs.Asked as spec;

use hm_script::number;

/// As many rows as a page has at most.
pub const MOST_ROWS: u64 = 20_000;

/// The rows that are asked for.
#[derive(Clone, Copy)]
pub enum Asked {
    /// All.
    All,
    /// Those from the first position on, up to the other, which is no longer one of them.
    Part(u64, u64),
}

fn part(from: &str, to: &str) -> Option<Asked>
    ensures { result ≡ spec.part from.now to.now }
{
    let Ok(from) = number(from.as_bytes()) else {
        return None;
    };
    match number(to.as_bytes()) {
        Ok(to) => Some(Asked::Part(from, to)),
        Err(_) => None,
    }
}

impl Asked {
    /// What the words ask for, if it is something that there is. A number is decimal, without leading zeros, and below
    /// 2^64.
    pub fn of(words: &[String]) -> Option<Asked>
        ensures { result ≡ spec.asked_of (map string_bytes words.now) }
    {
        match words {
            [] => Some(Asked::All),
            [from, to] => part(from.as_str(), to.as_str()),
            _ => None,
        }
    }

    /// The position of the first row.
    pub fn first(self) -> u64
        ensures { result ≡ spec.first self }
    {
        match self {
            Asked::All => 0,
            Asked::Part(from, _) => from,
        }
    }

    /// The position after the last row, of n.
    pub(crate) fn behind(self, count: u64) -> u64
        ensures same { result ≡ spec.behind self count }
        ensures within { result ≤ count }
    {
        match self {
            Asked::All => count,
            Asked::Part(_, to) => if to <= count { to } else { count },
        }
    }

    /// Whether the rows are there, of n.
    pub(crate) fn is_there(self, count: u64) -> bool
        ensures { result ≡ spec.is_there self count }
    {
        self.first() <= self.behind(count)
    }

    /// Whether the rows are few enough for a page, of n.
    pub(crate) fn fits(self, count: u64) -> bool
        ensures { result ≡ spec.fits self count }
    {
        self.behind(count).saturating_sub(self.first()) <= MOST_ROWS
    }
}
