// What the user of the program is told, and the caller of `run`: each is the contract of a function that does nothing.
ghost use Rattle.hm_top.specs.Theorem.{Answers, Theorem};

/// What the user of the program is told, for each word, follows from how the program ends. Every field of the records
/// of its calls is used here, so none of them can be left out unseen.
pub fn users_are_told()
    ensures { Theorem }
{}

/// What the answer of a call has, by what was asked for.
pub fn calls_answer_so()
    ensures { Answers }
{}
