// What holds of every history: a law in the contract of a function that does nothing.

ghost use Rattle.hm_report.specs.Counted.{EndsOfDueAreCounted};

/// If each entry was due, as many operations of each actor have ended as its entries tell.
pub fn ends_are_counted()
    ensures { EndsOfDueAreCounted }
{}
