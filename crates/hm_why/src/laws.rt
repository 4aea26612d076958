// What holds of the sources of every legal history: laws, each the contract of a function with an empty body.
ghost use Rattle.hm_why.specs.Laws.{LoadsHaveSources, LoadsLieInAPage};

/// Each byte of a load has a source, and following the entry there gave it the value that the load shows: a store or
/// an addition its byte, and a mapping 0.
pub fn loads_have_sources()
    ensures { LoadsHaveSources }
{}

/// The bytes of a load lie in one page of the address space.
pub fn loads_lie_in_a_page()
    ensures { LoadsLieInAPage }
{}
