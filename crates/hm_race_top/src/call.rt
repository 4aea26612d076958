// The top call: reads a script, searches its race, and writes what is asked for.
ghost use Rattle.std.specs.Prelude.{◌≡◌, false, None, map, string_bytes};
ghost use Rattle.hm_search.specs.Values.{all_known};
ghost use Rattle.hm_race_states.specs.Keyed.{form_in};
ghost use Rattle.hm_race_top.specs.Asked.{questions_in};
ghost use Rattle.hm_race_top.specs.Run.Played.{all_played};
ghost use Rattle.hm_race_top.specs.Text.Conditions.Asking.{unasked};
ghost use Rattle.hm_race_top.specs.Races.{HasFound, Races, Searches};
ghost use Rattle.hm_race_top.specs.Telling.{HasTold, IsSentOn, told};
ghost use Rattle.hm_script.specs.Built.{has_drain};
ghost use Rattle.hm_edge.specs.Traffic.{traffic};
ghost use Rattle.hm_edge.specs.Writing.{WriteFaulted};

use crate::asked::{Task, front, task_of};
use crate::laws::{all_is_listed, complete_is_all, known_is_true, true_is_real};
use crate::run::{Played, ScriptRace, orders_after, search};
use crate::settling::Settling;
use crate::telling::{tell, write_telling};
use crate::text::unasked;
use crate::ways::{blocks_of, has_drain};
use hm_base::{NoMemory, Script};
use hm_edge::{RaceEnd, Status, read_script};
use hm_history::StepError;
use hm_io::{Sink, Source};
use hm_race_states::key::StateKey;
use hm_search::Explored;
use std::alloc::Global;

/// Writes what is asked for, of a search that has ended, and of the orders that were played after it.
fn write_found<K: Sink>(
    alloc: Global,
    script: &Script,
    task: &Task,
    found: &Explored<StateKey>,
    orders: &[Played],
    sink: &mut K,
) -> Status
    ensures written { HasTold (told script.now task.now (all_known form_in found.now.known.items)
        (all_played orders.now) found.now.end) (K.state sink.old) (K.state sink.new) result }
    ensures faults { WriteFaulted (K.state sink.old).faults (K.state sink.new).faults result }
    ensures flushed { IsSentOn (K.state sink.new).pending result }
{
    script.facts();
    let known = found.known.as_slice();
    let Ok(blocks) = blocks_of(alloc, script.actors.len(), known, orders) else {
        return Status::NoMemory;
    };
    let states = known.len() as u64;
    match tell(alloc, script, task, blocks.as_slice(), states, found.end) {
        Ok(telling) => write_telling(alloc, &telling, sink),
        Err(NoMemory) => Status::NoMemory,
    }
}

/// Searches the race of a script whose schedule does not end in `drain`, and writes what is asked for. Its operations
/// may end with each line of the conditions.
fn search_from<K: Sink>(
    alloc: Global,
    race: &ScriptRace,
    most: u64,
    task: &Task,
    sink: &mut K,
) -> Status
    requires races { has_drain race.now.script.schedule ≡ false }
    requires asks { unasked race.now.script (questions_in task.now) ≡ None }
    ensures found { HasFound most race.now.script task.now (K.state sink.old) (K.state sink.new) result }
    ensures faults { WriteFaulted (K.state sink.old).faults (K.state sink.new).faults result }
    ensures flushed { IsSentOn (K.state sink.new).pending result }
{
    let script = race.script();
    script.facts();
    known_is_true();
    complete_is_all();
    true_is_real();
    all_is_listed();
    crate::text::none_twice();
    crate::text::rulings_are_right();
    crate::text::seen_is_right();
    crate::text::strict_is_right();
    let goal = Settling::new(alloc, task.goals(), script.actors.len());
    match search(alloc, race, &goal, most) {
        Ok(found) => match orders_after(alloc, race, found.end) {
            Ok(orders) => write_found(alloc, script, task, &found, orders.as_slice(), sink),
            Err(NoMemory) => Status::NoMemory,
        },
        Err(StepError::Full(_)) => Status::HistoryFull,
        Err(StepError::NoMemory) => Status::NoMemory,
    }
}

/// Makes the set-up of a script whose schedule does not end in `drain`, searches the race after it, and writes what is
/// asked for.
fn search_race<K: Sink>(
    alloc: Global,
    script: Script,
    most: u64,
    task: &Task,
    sink: &mut K,
) -> Status
    requires races { has_drain script.schedule ≡ false }
    requires asks { unasked script (questions_in task.now) ≡ None }
    ensures found { HasFound most script task.now (K.state sink.old) (K.state sink.new) result }
    ensures faults { WriteFaulted (K.state sink.old).faults (K.state sink.new).faults result }
    ensures flushed { IsSentOn (K.state sink.new).pending result }
{
    match ScriptRace::new(alloc, script) {
        Ok(race) => search_from(alloc, &race, most, task, sink),
        Err(StepError::Full(_)) => Status::HistoryFull,
        Err(StepError::NoMemory) => Status::NoMemory,
    }
}

/// Searches the race of a script, and writes what is asked for.
fn find<K: Sink>(alloc: Global, script: Script, most: u64, task: &Task, sink: &mut K) -> Status
    ensures found { HasFound most script task.now (K.state sink.old) (K.state sink.new) result }
    ensures faults { WriteFaulted (K.state sink.old).faults (K.state sink.new).faults result }
    ensures flushed { IsSentOn (K.state sink.new).pending result }
{
    if has_drain(script.schedule.as_slice()) {
        return Status::Race(RaceEnd::Drained);
    }
    match unasked(alloc, &script, task.questions()) {
        Ok(None) => search_race(alloc, script, most, task, sink),
        Ok(Some((condition, word))) => Status::Race(RaceEnd::NoCondition(condition, word)),
        Err(NoMemory) => Status::NoMemory,
    }
}

/// Reads a script, searches its race, and writes what is asked for.
fn read_and_find<S: Source, K: Sink>(
    alloc: Global,
    most: u64,
    task: &Task,
    source: &mut S,
    sink: &mut K,
) -> Status
    ensures { Searches most task.now
        (traffic S.state K.state source.old source.new sink.old sink.new) result }
{
    match read_script(alloc, source) {
        Ok(script) => find(alloc, script, most, task, sink),
        Err(status) => status,
    }
}

/// Reads a script from the source, and writes to the sink what the words after the program's name ask for: all outcomes
/// of its race, one after the other or as a table; the script with the schedule of one outcome; or whether conditions
/// hold. It knows of no more states than they say. The script's schedule is the set-up; from there every actor may take
/// its turn at any time. It waits for nobody.
pub fn races<S: Source, K: Sink>(
    alloc: Global,
    words: &[String],
    source: &mut S,
    sink: &mut K,
) -> Status
    ensures { Races (map string_bytes words.now)
        (traffic S.state K.state source.old source.new sink.old sink.new) result }
{
    let Some((most, rest)) = front(words) else {
        return Status::Usage;
    };
    match task_of(alloc, rest) {
        Ok(task) => read_and_find(alloc, most, &task, source, sink),
        Err(status) => status,
    }
}
