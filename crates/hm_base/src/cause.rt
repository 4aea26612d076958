// Why operations are refused and accesses fail.

/// Why an operation is refused, or a piece of an access fails. Only the first four are causes of an access. A report
/// has their numbers, from 1 on, in this order.
#[derive(Clone, Copy, PartialEq, Eq)]
pub enum Cause {
    /// The page has no area (`SEGV_MAPERR`), or the process is not there; to `protect`, some page has none.
    Unmapped,
    /// A write to a page of a read-only area (`SEGV_ACCERR`).
    Forbidden,
    /// Every frame of the system was held when one was needed.
    NoFrame,
    /// The mirror is not attached, or a page lies outside its window.
    Outside,
    /// A page of `map` has an area already.
    Overlap,
    /// The process would have more than 64 areas.
    TooManyAreas,
    /// The child's number was given to a fork already, or is that of the first process.
    NameTaken,
    /// The process is not there.
    NoProcess,
    /// The mirror was attached already.
    MirrorTaken,
    /// The device was removed already.
    Removed,
    /// Stands in the definitions where no run comes: a phase that is none of its operation's. No report has it.
    Never,
}
