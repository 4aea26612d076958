// The words of an event's line, read by the event that they name.
ghost use Rattle.std.specs.Prelude.{◌≡◌};
ghost use Rattle.hm_trace.specs.Events.{event_at};

use crate::event_word::EventWord;
use crate::fields::Fields;
use crate::words::{
    done, frame, lettered, locked, owner, reason, span, table_right, to_device, writes,
};
use hm_protocol::Event;
use hm_script::{Reason, number};

#[tactic(auto, unfolding(crate::specs::Events::event_at))]
fn found(words: &mut Fields) -> Result<Event, Reason>
    ensures { result ≡ event_at EventWord.Found words.old }
{
    let mirror = lettered(words.next())?;
    let page = number(words.next())?;
    let frame = frame(words.next())?;
    let writes = writes(words.next());
    Ok(Event::Found {
        mirror,
        page,
        frame,
        writes,
    })
}

#[tactic(auto, unfolding(crate::specs::Events::event_at))]
fn used(words: &mut Fields) -> Result<Event, Reason>
    ensures { result ≡ event_at EventWord.Use words.old }
{
    let mirror = lettered(words.next())?;
    let span = span(words.next(), words.next())?;
    let writes = writes(words.next());
    Ok(Event::Use {
        mirror,
        span,
        writes,
    })
}

#[tactic(auto, unfolding(crate::specs::Events::event_at))]
fn set(words: &mut Fields) -> Result<Event, Reason>
    ensures { result ≡ event_at EventWord.Set words.old }
{
    let mirror = lettered(words.next())?;
    let page = number(words.next())?;
    let frame = frame(words.next())?;
    let right = table_right(words.next());
    Ok(Event::Set {
        mirror,
        page,
        frame,
        right,
    })
}

#[tactic(auto, unfolding(crate::specs::Events::event_at))]
fn erased(words: &mut Fields) -> Result<Event, Reason>
    ensures { result ≡ event_at EventWord.Erase words.old }
{
    let mirror = lettered(words.next())?;
    let page = number(words.next())?;
    Ok(Event::Erase { mirror, page })
}

#[tactic(auto, unfolding(crate::specs::Events::event_at))]
fn started(words: &mut Fields) -> Result<Event, Reason>
    ensures { result ≡ event_at EventWord.Start words.old }
{
    let proc = lettered(words.next())?;
    let span = span(words.next(), words.next())?;
    let reason = reason(words.next())?;
    let owner = owner(words.next())?;
    Ok(Event::Start {
        proc,
        span,
        reason,
        owner,
    })
}

#[tactic(auto, unfolding(crate::specs::Events::event_at))]
fn ended(words: &mut Fields) -> Result<Event, Reason>
    ensures { result ≡ event_at EventWord.End words.old }
{
    let proc = lettered(words.next())?;
    let span = span(words.next(), words.next())?;
    Ok(Event::End { proc, span })
}

#[tactic(auto, unfolding(crate::specs::Events::event_at))]
fn tell(words: &mut Fields) -> Result<Event, Reason>
    ensures { result ≡ event_at EventWord.Tell words.old }
{
    let mirror = lettered(words.next())?;
    let span = span(words.next(), words.next())?;
    let seq = number(words.next())?;
    Ok(Event::Tell { mirror, span, seq })
}

#[tactic(auto, unfolding(crate::specs::Events::event_at))]
fn told(words: &mut Fields) -> Result<Event, Reason>
    ensures { result ≡ event_at EventWord.Told words.old }
{
    let mirror = lettered(words.next())?;
    let seq = number(words.next())?;
    let done = done(words.next());
    Ok(Event::Told { mirror, seq, done })
}

#[tactic(auto, unfolding(crate::specs::Events::event_at))]
fn begun(words: &mut Fields) -> Result<Event, Reason>
    ensures { result ≡ event_at EventWord.Begin words.old }
{
    let mirror = lettered(words.next())?;
    let seq = number(words.next())?;
    Ok(Event::Begin { mirror, seq })
}

#[tactic(auto, unfolding(crate::specs::Events::event_at))]
fn walk(words: &mut Fields) -> Result<Event, Reason>
    ensures { result ≡ event_at EventWord.Walk words.old }
{
    let mirror = lettered(words.next())?;
    let span = span(words.next(), words.next())?;
    let seq = number(words.next())?;
    let locked = locked(words.next());
    let owner = owner(words.next())?;
    Ok(Event::Walk {
        mirror,
        span,
        seq,
        locked,
        owner,
    })
}

#[tactic(auto, unfolding(crate::specs::Events::event_at))]
fn walked(words: &mut Fields) -> Result<Event, Reason>
    ensures { result ≡ event_at EventWord.Walked words.old }
{
    let mirror = lettered(words.next())?;
    let done = done(words.next());
    Ok(Event::Walked { mirror, done })
}

#[tactic(auto, unfolding(crate::specs::Events::event_at))]
fn collected(words: &mut Fields) -> Result<Event, Reason>
    ensures { result ≡ event_at EventWord.From words.old }
{
    let page = number(words.next())?;
    let frame = frame(words.next())?;
    let writes = writes(words.next());
    Ok(Event::From {
        page,
        frame,
        writes,
    })
}

#[tactic(auto, unfolding(crate::specs::Events::event_at))]
fn moved(words: &mut Fields) -> Result<Event, Reason>
    ensures { result ≡ event_at EventWord.Moved words.old }
{
    let page = number(words.next())?;
    let frame = frame(words.next())?;
    Ok(Event::Moved { page, frame })
}

#[tactic(auto, unfolding(crate::specs::Events::event_at))]
fn stayed(words: &mut Fields) -> Result<Event, Reason>
    ensures { result ≡ event_at EventWord.Stayed words.old }
{
    let page = number(words.next())?;
    let frame = frame(words.next())?;
    Ok(Event::Stayed { page, frame })
}

#[tactic(auto, unfolding(crate::specs::Events::event_at))]
fn set_up(words: &mut Fields) -> Result<Event, Reason>
    ensures { result ≡ event_at EventWord.Setup words.old }
{
    let proc = lettered(words.next())?;
    let span = span(words.next(), words.next())?;
    let to_device = to_device(words.next());
    let owner = owner(words.next())?;
    Ok(Event::Setup {
        proc,
        span,
        to_device,
        owner,
    })
}

#[tactic(auto, unfolding(crate::specs::Events::event_at))]
fn ready(words: &mut Fields) -> Result<Event, Reason>
    ensures { result ≡ event_at EventWord.Ready words.old }
{
    let proc = lettered(words.next())?;
    Ok(Event::Ready { proc })
}

#[tactic(auto, unfolding(crate::specs::Events::event_at))]
fn paged(words: &mut Fields) -> Result<Event, Reason>
    ensures { result ≡ event_at EventWord.Paged words.old }
{
    let proc = lettered(words.next())?;
    Ok(Event::Paged { proc })
}

#[tactic(auto, unfolding(crate::specs::Events::event_at))]
fn finalized(words: &mut Fields) -> Result<Event, Reason>
    ensures { result ≡ event_at EventWord.Finalize words.old }
{
    let proc = lettered(words.next())?;
    Ok(Event::Finalize { proc })
}

#[tactic(auto, unfolding(crate::specs::Events::event_at))]
fn taken(words: &mut Fields) -> Result<Event, Reason>
    ensures { result ≡ event_at EventWord.Take words.old }
{
    let frame = frame(words.next())?;
    Ok(Event::Take { frame })
}

#[tactic(auto, unfolding(crate::specs::Events::event_at))]
fn freed(words: &mut Fields) -> Result<Event, Reason>
    ensures { result ≡ event_at EventWord.Free words.old }
{
    let frame = frame(words.next())?;
    Ok(Event::Free { frame })
}

#[tactic(auto, unfolding(crate::specs::Events::event_at))]
fn insertion(words: &mut Fields) -> Result<Event, Reason>
    ensures { result ≡ event_at EventWord.Insert words.old }
{
    let mirror = lettered(words.next())?;
    let proc = lettered(words.next())?;
    let window = span(words.next(), words.next())?;
    let device = owner(words.next())?;
    Ok(Event::Insert {
        mirror,
        proc,
        window,
        device,
    })
}

#[tactic(auto, unfolding(crate::specs::Events::event_at))]
fn inserted(words: &mut Fields) -> Result<Event, Reason>
    ensures { result ≡ event_at EventWord.Inserted words.old }
{
    let mirror = lettered(words.next())?;
    let seq = number(words.next())?;
    let done = done(words.next());
    Ok(Event::Inserted { mirror, seq, done })
}

#[tactic(auto, unfolding(crate::specs::Events::event_at))]
fn removal(words: &mut Fields) -> Result<Event, Reason>
    ensures { result ≡ event_at EventWord.Remove words.old }
{
    let mirror = lettered(words.next())?;
    Ok(Event::Remove { mirror })
}

#[tactic(auto, unfolding(crate::specs::Events::event_at))]
fn removed(words: &mut Fields) -> Result<Event, Reason>
    ensures { result ≡ event_at EventWord.Removed words.old }
{
    let mirror = lettered(words.next())?;
    Ok(Event::Removed { mirror })
}

#[tactic(auto, unfolding(crate::specs::Events::event_at))]
fn fetched(words: &mut Fields) -> Result<Event, Reason>
    ensures { result ≡ event_at EventWord.Fetch words.old }
{
    let mirror = lettered(words.next())?;
    let page = number(words.next())?;
    Ok(Event::Fetch { mirror, page })
}

#[tactic(auto, unfolding(crate::specs::Events::event_at))]
fn added(words: &mut Fields) -> Result<Event, Reason>
    ensures { result ≡ event_at EventWord.Add words.old }
{
    let mirror = lettered(words.next())?;
    let page = number(words.next())?;
    Ok(Event::Add { mirror, page })
}

#[tactic(auto, unfolding(crate::specs::Events::event_at))]
fn withdrawn(words: &mut Fields) -> Result<Event, Reason>
    ensures { result ≡ event_at EventWord.Withdraw words.old }
{
    let device = lettered(words.next())?;
    Ok(Event::Withdraw { device })
}

#[tactic(auto, unfolding(crate::specs::Events::event_at))]
fn gone(words: &mut Fields) -> Result<Event, Reason>
    ensures { result ≡ event_at EventWord.Gone words.old }
{
    let device = lettered(words.next())?;
    Ok(Event::Gone { device })
}

#[tactic(auto, unfolding(crate::specs::Events::event_at))]
fn passed(words: &mut Fields) -> Result<Event, Reason>
    ensures { result ≡ event_at EventWord.Pass words.old }
{
    let frame = frame(words.next())?;
    Ok(Event::Pass { frame })
}

/// Reads the words after an event's name.
pub(crate) fn read_event(words: &mut Fields, event: EventWord) -> Result<Event, Reason>
    ensures { result ≡ event_at event words.old }
{
    match event {
        EventWord::Found => found(words),
        EventWord::Use => used(words),
        EventWord::Set => set(words),
        EventWord::Erase => erased(words),
        EventWord::Start => started(words),
        EventWord::End => ended(words),
        EventWord::Tell => tell(words),
        EventWord::Told => told(words),
        EventWord::Begin => begun(words),
        EventWord::Walk => walk(words),
        EventWord::Walked => walked(words),
        EventWord::From => collected(words),
        EventWord::Moved => moved(words),
        EventWord::Stayed => stayed(words),
        EventWord::Setup => set_up(words),
        EventWord::Ready => ready(words),
        EventWord::Paged => paged(words),
        EventWord::Finalize => finalized(words),
        EventWord::Take => taken(words),
        EventWord::Free => freed(words),
        EventWord::Insert => insertion(words),
        EventWord::Inserted => inserted(words),
        EventWord::Remove => removal(words),
        EventWord::Removed => removed(words),
        EventWord::Fetch => fetched(words),
        EventWord::Add => added(words),
        EventWord::Withdraw => withdrawn(words),
        EventWord::Gone => gone(words),
        EventWord::Pass => passed(words),
    }
}
