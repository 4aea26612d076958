// What holds of the trace of each legal report: laws in the contracts of functions that do nothing.
ghost use Rattle.hm_projection.specs.Theorem.{Theorem};
ghost use Rattle.hm_projection.specs.Traces.{TracesAreUnblamed};

/// What `read_trace` of hm_trace makes of the trace of a legal report is the events of its history, and blames nobody:
/// no verdict on them says that a rule is broken, or may be.
pub fn the_trace_is_unblamed()
    ensures { TracesAreUnblamed }
{
    hm_protocol::no_verdict_blames_a_legal_history();
}

/// What the user of the program is told follows from how it ends. Every field of the records of its call is used here,
/// so none of them can be left out unseen.
pub fn users_are_told()
    ensures { Theorem }
{}
