// What the parts say together, and what is shown: laws in contracts of functions that do nothing.
ghost use Rattle.hm_parts.specs.Parts.{AllPartsSay};
ghost use Rattle.hm_parts.specs.Shown.{ShownAreRight};

/// An entry may follow a history if it is due and meets all parts, and only then.
pub fn may_follow()
    ensures { AllPartsSay }
{}

/// What is shown where sequences do not allow an entry is an entry of its actor that they allow.
pub fn shown_sequences_are_right()
    ensures { ShownAreRight }
{}
