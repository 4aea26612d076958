// What the words after the program's name ask for.
ghost use Rattle.std.specs.Prelude.{◌≡◌, map, string_bytes};
ghost use Rattle.hm_judge.specs.Asked as spec;

/// What is to be said of a report.
#[derive(Clone, Copy)]
pub enum Asked {
    /// Whether it is legal, and what is wrong with it if it is not.
    Verdict,
    /// How each actor stands after a legal report, too.
    Standing,
    /// Which rules the entries after the first bad line break, too.
    All,
}

fn asked_by(word: &str) -> Option<Asked>
    ensures { result ≡ spec.asked_by word.now }
{
    if word == "--standing" {
        return Some(Asked::Standing);
    }
    if word == "--all" {
        return Some(Asked::All);
    }
    None
}

impl Asked {
    /// What the words ask for, if it is something that there is.
    pub fn of(words: &[String]) -> Option<Asked>
        ensures { result ≡ spec.asked_of (map string_bytes words.now) }
    {
        match words {
            [] => Some(Asked::Verdict),
            [word] => asked_by(word.as_str()),
            _ => None,
        }
    }
}
