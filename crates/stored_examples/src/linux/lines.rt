// Lines of words.

/// Whether the line begins with the words of the pattern, in which `*` stands for any word.
pub fn is_like(line: &str, pattern: &str) -> bool {
    let mut words = line.split(' ');
    for wanted in pattern.split(' ') {
        match words.next() {
            Some(word) => {
                if wanted != "*" && wanted != word {
                    return false;
                }
            }
            None => return false,
        }
    }
    true
}

/// What a line of a history says of its actor: all after the position and the actor.
pub fn entry(line: &str) -> Option<&str> {
    let (position, rest) = line.split_once(' ')?;
    position.parse::<u64>().ok()?;
    let (_, entry) = rest.split_once(' ')?;
    Some(entry)
}

/// The first words of the entries that end an operation, or a piece of one.
const ANSWERS: [&str; 17] = [
    "loaded",
    "stored",
    "failed",
    "refused",
    "mapped",
    "unmapped",
    "protected",
    "forked",
    "exited",
    "attached",
    "detached",
    "migrated",
    "seen",
    "evicted",
    "removed",
    "excluded",
    "added",
];

/// Whether an entry is an answer: it ends an operation, or a piece of one.
pub fn is_answer(entry: &str) -> bool {
    let word = entry.split(' ').next().unwrap_or("");
    ANSWERS.iter().any(|answer| *answer == word)
}
