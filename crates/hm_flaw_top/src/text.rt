// The words of a search for races of drivers with a flaw, and the texts of what it has found. Nothing here searches.

mod lines;
mod names;
mod table;
mod task;

pub use lines::answer_text;
pub use names::{all_flaws, names_are_theirs, part_name, rule_name, rule_named};
pub use table::{RuleAnswer, add_rule_line, rules_text};
pub use task::{BadWord, MOST_STATES, Task, Which, WordFault, task_of, words_are_tasks};
