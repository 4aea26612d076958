// What holds of the words of every page: a law in the contract of a function that does nothing.
ghost use Rattle.hm_view.specs.Laws.{ChangesAreTold, EachChangeIsTold, LegalIsDue};
ghost use Rattle.hm_view.specs.Theorem.{Theorem};

/// An entry's changes lead from what is shown before it to what is shown after it.
pub fn each_change_is_told()
    ensures { EachChangeIsTold }
{}

/// What is put together of the changes before a position is what is shown of the state there.
pub fn changes_are_told()
    ensures { ChangesAreTold }
{}

/// Each entry of a legal history was due after those before it.
pub fn legal_is_due()
    ensures { LegalIsDue }
{}

/// What the user of the program is told follows from how it ends. Every field of the records of its call is used here,
/// so none of them can be left out unseen.
pub fn users_are_told()
    ensures { Theorem }
{}
