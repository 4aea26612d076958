// What the events of invalidations and of tables make of what is known.
ghost use Rattle.std.specs.Prelude.{◌≡◌, true, false, OnOk, reverse, find, option_map, ◌==◌, ◌&&◌};
ghost use Rattle.hm_protocol.specs.declared.events.Event.{Event as AnyEvent};
ghost use Rattle.hm_protocol.specs.Noted.{noted, over, inside, migrates_for};
ghost use Rattle.hm_verdicts.specs.Knowledge.{known_of};

use crate::calls::Call;
use crate::insides::Inside;
use crate::knowledge::Knowledge;
use crate::newest_first::Passes;
use crate::table;
use hm_base::NoMemory;
use hm_protocol::{Reason, TraceSpan};

// The device whose migration an invalidation is for.
fn migrates_for(reason: Reason, owner: Option<u64>) -> Option<u64>
    ensures { result ≡ migrates_for reason owner }
{
    match reason {
        Reason::Migrate => owner,
        _ => None,
    }
}

// The thread's inner invalidation.
fn inside(under: &[Inside]) -> Option<Inside>
    ensures { result ≡ inside (reverse under.now) }
{
    under.last().copied()
}

// Where the inner invalidation of this process and span began.
fn begun_of(under: &[Inside], proc: u64, span: TraceSpan) -> Option<u64>
    ensures { result ≡ option_map (λ y. y.at) (find (λ y. (y.proc == proc)
        && ((y.span.first == span.first) && (y.span.count == span.count))) (reverse under.now)) }
{
    let mut last = None;
    for one in under {
        if one.is_of(proc, span) {
            last = Some(one.at());
        }
    }
    last
}

// It began there.
#[derive(Drop)]
struct BegunAt(u64);

impl Passes<Inside> for BegunAt {
    ghost use Rattle.std.specs.Prelude.{◌==◌};

    ghost test = { λ s y. y.at == s.0 };

    fn test(&self, one: &Inside) -> bool {
        one.at() == self.0
    }
}

impl Knowledge {
    // An invalidation begins.
    pub(crate) fn start(
        &mut self,
        thread: u64,
        proc: u64,
        span: TraceSpan,
        reason: Reason,
        owner: Option<u64>,
    ) -> Result<(), NoMemory>
        ensures { OnOk result
            (known_of self.new ≡ noted (known_of self.old) thread (AnyEvent.Start proc span reason owner)) }
    {
        let one = Inside::new(self.at, proc, span, migrates_for(reason, owner));
        self.under.push(self.alloc, thread, one)?;
        Ok(())
    }

    // One is over, that began there.
    pub(crate) fn over(&mut self, thread: u64, begun: Option<u64>) -> Result<(), NoMemory>
        ensures { OnOk result (known_of self.new ≡ over (known_of self.old) thread begun) }
    {
        let Some(begun) = begun else {
            return Ok(());
        };
        self.under.drop_if(self.alloc, thread, &BegunAt(begun))?;
        self.calls.end(begun, self.at)?;
        Ok(())
    }

    // One ends.
    pub(crate) fn end(&mut self, thread: u64, proc: u64, span: TraceSpan) -> Result<(), NoMemory>
        ensures { OnOk result (known_of self.new ≡ noted (known_of self.old) thread (AnyEvent.End proc span)) }
    {
        let begun = begun_of(self.under.oldest_first(thread), proc, span);
        self.over(thread, begun)
    }

    // A callback begins.
    pub(crate) fn tell(
        &mut self,
        thread: u64,
        mirror: u64,
        span: TraceSpan,
        seq: u64,
    ) -> Result<(), NoMemory>
        ensures { OnOk result
            (known_of self.new ≡ noted (known_of self.old) thread (AnyEvent.Tell mirror span seq)) }
    {
        let had = table::in_span(self.alloc, &self.slots, mirror, span)?;
        let within = inside(self.under.oldest_first(thread));
        let call = Call::new(self.alloc, thread, mirror, span, seq, within, self.at, had)?;
        self.calls.push(call)?;
        Ok(())
    }

    // It returns.
    pub(crate) fn told(&mut self, thread: u64, mirror: u64, seq: u64) -> Result<(), NoMemory>
        ensures { OnOk result
            (known_of self.new ≡ noted (known_of self.old) thread (AnyEvent.Told mirror seq true)) }
    {
        let moves = self.moves.oldest_first(thread);
        self.calls
            .return_all(self.alloc, moves, thread, mirror, self.at, seq)?;
        Ok(())
    }

    // It would have had to sleep, and the invalidation is given up.
    pub(crate) fn not_told(&mut self, thread: u64, mirror: u64, seq: u64) -> Result<(), NoMemory>
        ensures { OnOk result
            (known_of self.new ≡ noted (known_of self.old) thread (AnyEvent.Told mirror seq false)) }
    {
        let begun = self.calls.begun(thread, mirror);
        self.calls.drop_current(thread, mirror);
        self.over(thread, begun)
    }

    // An entry is erased.
    pub(crate) fn erase(&mut self, thread: u64, mirror: u64, page: u64) -> Result<(), NoMemory>
        ensures { OnOk result (known_of self.new ≡ noted (known_of self.old) thread (AnyEvent.Erase mirror page)) }
    {
        table::erase(&mut self.slots, mirror, page);
        let moves = self.moves.oldest_first(thread);
        self.calls.erase(thread, &self.device, moves, mirror, page)
    }
}
