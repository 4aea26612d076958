// The rules in words.
ghost use Rattle.std.specs.Prelude.{◌≡◌};
ghost use Rattle.hm_trace_top.specs.Sentences.{sentence};

use hm_protocol::Rule;

/// What a rule says, in one plain sentence; docs/BROKEN.md says more.
pub fn sentence(rule: Rule) -> &'static str
    ensures { result.now ≡ sentence rule }
{
    match rule {
        Rule::Compare => "the driver compares sequences before it commits a look-up",
        Rule::CompareSequence =>
            "what it compares is sequences, and not whether the interval is being invalidated at that moment",
        Rule::EntryRight =>
            "the driver sets an entry for writes only if its look-up has found the page for writes",
        Rule::MmapLock => "the driver holds the mmap lock while it walks",
        Rule::OwnDevice => "the driver does not take another device's memory for its own",
        Rule::BeginWaits => "the driver begins no look-up while its interval is being invalidated",
        Rule::BeginFirst => "the driver reads the sequence before it walks, and not after",
        Rule::SetSequence =>
            "the callback sets the sequence that it is given, of every invalidation",
        Rule::Erase => "the callback erases the entries of the span that it is told of",
        Rule::EraseAll => "the callback erases all entries of the span, and not some",
        Rule::EraseInTime => "the callback has erased the entries when it returns",
        Rule::OwnEvents =>
            "the driver does not ignore the invalidations of its own device's migrations",
        Rule::OwnSequence => "the callback sets the sequence of its own device's migrations, too",
        Rule::OwnEntries => "the callback erases the entries of its own device's migrations, too",
        Rule::StopAtDetach => "the driver does not use its table after it is detached",
        Rule::WriteEntry => "the device does not write through an entry for reads",
        Rule::DetachWaits => "the driver is not detached while its mirror is being invalidated",
        Rule::SetMoved =>
            "the driver sets entries of the pages that have moved, and not of one that stayed",
        Rule::SetRight =>
            "the driver sets a page that it moved for writes only if the migration has found it for writes",
        Rule::SetUnlessInvalidated =>
            "the driver sets no entry of a page that it moved while its interval is being invalidated",
        Rule::DropLost => "the driver frees the frame that it gave to a page which did not move",
        Rule::TakeFromThere => "no frame is taken of a device that is withdrawn",
        Rule::EvictFirst => "a device is not removed while frames of it are held",
        Rule::WithdrawFirst => "a device is withdrawn before it is removed",
        Rule::WaitForLocked =>
            "a removal waits for frames that another thread has locked, and does not pass over them",
        Rule::ExclusiveWaits =>
            "the driver sets no page that an actor has alone while its interval is being invalidated",
        Rule::LookAgain => "the driver looks a second time before it adds to an exclusive page",
    }
}
