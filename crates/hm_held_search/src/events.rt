// The holds of a race with which a search for the needed ones begins.
ghost use Rattle.std.specs.Prelude.{◌≡◌, ◌++◌, ◌∷◌, ◌<◌, ◌≤◌, [], length, slice_get, take, IfOk, OnOk, Some};
ghost use Rattle.hm_held_search.specs.Events.{event_of, final, first_of, last_event, nth_in, nth_of, same_event};
ghost use Rattle.hm_held_search.specs.Events.{changes, wait_at, wait_for, waits_in};

use hm_base::{Actor, NoMemory};
use hm_history::Entry;
use hm_holds::{Hold, Nth, Word, same_word, word_of};
use std::alloc::Global;

/// What holds name of an entry.
#[derive(Clone, Copy)]
pub struct Event {
    pub actor: Actor,
    pub word: Word,
}

impl Event {
    /// That of an entry.
    pub fn of(entry: &Entry) -> Event
        ensures { result ≡ event_of entry.now }
    {
        Event {
            actor: entry.actor,
            word: word_of(&entry.kind),
        }
    }

    // Whether the two have one actor and one word.
    fn same(&self, other: &Event) -> bool
        ensures { result ≡ same_event self.now other.now }
    {
        self.actor == other.actor && same_word(self.word, other.word)
    }
}

// The last of these that is so named, by its word and how often it has come.
fn nth_of(events: &[Event], event: Event) -> Nth
    ensures { result ≡ nth_in events.now event }
{
    let mut number = 0;
    for other in events {
        if event.same(other) {
            number += 1;
        }
    }
    Nth {
        word: event.word,
        number,
    }
}

// The last of these that is of the actor, if one is.
fn last_of(events: &[Event], actor: Actor) -> Option<Event>
    ensures { result ≡ last_event actor events.now }
{
    let mut last = None;
    for event in events {
        if event.actor == actor {
            last = Some(*event);
        }
    }
    last
}

// The actor waits, after its last entry among these, for the last of them, which is this one.
fn waiting(events: &[Event], actor: Actor, last: Event) -> Hold
    ensures { result ≡ waits_in events.now actor last }
{
    let after = match last_of(events, actor) {
        None => None,
        Some(own) => Some(nth_of(events, own)),
    };
    Hold {
        actor,
        after,
        other: last.actor,
        until: nth_of(events, last),
    }
}

// Adds a hold of the actor, if the last of these is of another one.
fn add_wait(holds: &mut Vec<Hold>, events: &[Event], actor: Actor) -> Result<(), NoMemory>
    ensures { OnOk result (holds.new.items ≡ holds.old.items ++ wait_for events.now actor (final events.now)) }
{
    match events.last() {
        None => Ok(()),
        Some(last) => {
            if actor == last.actor {
                return Ok(());
            }
            holds.push(waiting(events, actor, *last))?;
            Ok(())
        }
    }
}

// A hold for each change of the actor.
fn changed(alloc: Global, events: &[Event]) -> Result<Vec<Hold>, NoMemory>
    ensures { IfOk result (λ v. v.items ≡ changes events.now (length events.now)) }
{
    let mut holds = Vec::new(alloc);
    for at in 0..events.len() {
        add_wait(&mut holds, &events[..at], events[at].actor)?;
    }
    Ok(holds)
}

/// A hold for each change of the actor, and one for each other actor at the end: it waits, after its last entry, for
/// the one that goes wrong, which is the last.
pub fn first_holds(alloc: Global, events: &[Event], actors: u32) -> Result<Vec<Hold>, NoMemory>
    requires { actors ≤ 16 }
    ensures { IfOk result (λ v. v.items ≡ first_of events.now actors) }
{
    let mut holds = changed(alloc, events)?;
    for number in 0..actors {
        add_wait(&mut holds, events, Actor::new(number))?;
    }
    Ok(holds)
}
