// The value and its turn. Steps are made on a table of words and one slot, which holds the value.
ghost use Rattle.std.specs.Prelude.{◌≡◌, ◌≢◌, ℕ, ◌+◌, ◌-◌, ◌<◌, ◌≤◌, [], ◌∷◌, ◌++◌, length, true, false, Some, None};
ghost use Rattle.std.specs.Prelude.{IfOk, IfSome, length as size};
ghost use mathlib.Core.List.{IsPrefix};
ghost use Rattle.hm_base.specs.Program.{IsScript};
ghost use Rattle.hm_turns.specs.Touching.{last_touched};
ghost use Rattle.hm_turns.specs.Sights.{Desk, Sight, TurnsTo, GoesOn, half_of, whole_of, joined, all_shares, OwnsOnce};
ghost use Rattle.hm_turns.specs.Sights.{AreMarks};
ghost use Rattle.hm_history.specs.declared.StepError.{StepError};
ghost use Rattle.hm_turns.specs.Ruled.{grown, raised, even, freed, told_count, told_mark, IsAhead, sight_of};
ghost use Rattle.hm_turns.specs.Ruled.{AreResting};
ghost use Rattle.hm_turns.specs.Seats.{IsSized, IsIdle, Becomes, Takes, IsGivable, OwnsItsOwn, sight};

use crate::known::Knowledge;
use crate::pass::Pass;
use crate::plays::{Compare, Count, Cut, Give, Glue, Mark, Note, Publish, Raise, Take};
use crate::receipt::Receipt;
use crate::rule::Board;
use crate::stepped::Stepped;
use crate::turn::Turn;
use atomic_table::{Badge, Seat};
use hm_base::{Actor, NoMemory, Proc};
use hm_history::{Entry, Progress};
use std::alloc::Global;
use std::marker::Model;
use std::mem;
use std::snapshot::Snapshot;

/// The word of the published length of the history.
const COUNT: usize = 0;

/// The word that is 1 while a pass has the turn.
const TURN: usize = 1;

/// The word of the first of 32 marks, one for each process.
const MARKS: usize = 2;

pub(crate) type Seated<S> = Seat<Option<S>, Knowledge>;

/// One stepped value, whose steps are made one at a time by whoever has the turn. No call waits for another.
#[derive(Drop)]
pub struct Turns<S: Stepped> {
    pub(crate) board: Board<S>,
}

impl<S: Stepped> Model for Turns<S> {
    ghost use Rattle.hm_base.specs.Program.{IsScript};
    ghost use Rattle.hm_turns.specs.Sights.{Desk};
    ghost use Rattle.hm_turns.specs.Seats.{IsSized};

    ghost Value = { Desk };

    ghost view = { λ t. record { table = t.board.shared.table_id; script = S.script t.board.shared.key.value } };

    ghost invariant = { λ t. IsSized t.board.shared.table_id × IsScript (S.script t.board.shared.key.value) };
}

impl<S: Stepped> Turns<S> {
    /// Shares the value, and gives the pass with all 64 shares. Only this call takes memory.
    pub fn new(alloc: Global, stepped: S) -> Result<(Turns<S>, Pass), NoMemory>
        requires empty { S.history stepped ≡ [] }
        requires running { S.halt stepped ≡ None }
        ensures { IfOk result (λ r. (r.0.script ≡ S.script stepped) × (r.1 ≡ whole_of r.0)) }
    {
        let about = Snapshot::of(&stepped);
        // This shows that the script is in range.
        let _ = stepped.length();
        let Ok(mut slots) = Vec::with_capacity(alloc, 1) else {
            return Err(NoMemory);
        };
        if slots.push(Some(stepped)).is_err() {
            return Err(NoMemory);
        }
        let Ok((board, seat)) = Board::new(alloc, &[0; 34], slots, &about) else {
            return Err(NoMemory);
        };
        let pass = Pass {
            badge: seat.into_badge(),
        };
        Ok((Turns { board }, pass))
    }

    /// Costs nothing: it hands the prover the invariant.
    pub fn facts(&self)
        ensures { IsScript self.now.script }
    {
        let _ = &self.board;
    }

    /// Cuts a pass with one share off, which has seen what the old one has and none of whose entries are its own.
    pub fn split(&self, pass: &mut Pass) -> Pass
        requires own { pass.old.desk ≡ self.now }
        requires shares { 1 < pass.old.shares }
        ensures old { pass.new ≡ record pass.old { shares = pass.old.shares - 1 } }
        ensures new { result ≡ half_of pass.old }
    {
        let mut seat = seat_of(mem::replace(&mut pass.badge, Badge::blank()));
        let other = split_at(&self.board, &mut seat);
        pass.badge = badge_of(seat);
        Pass {
            badge: badge_of(other),
        }
    }

    /// Takes in a pass, and keeps the longer list, which the other begins.
    pub fn join(&self, pass: &mut Pass, other: Pass)
        requires own { (pass.old.desk ≡ self.now) × (other.desk ≡ self.now) }
        ensures both { pass.new ≡ joined pass.old other }
        ensures lists { IsPrefix pass.old.list pass.new.list × IsPrefix other.list pass.new.list }
        ensures once { OwnsOnce pass.new.own pass.new.list }
    {
        let mut seat = seat_of(mem::replace(&mut pass.badge, Badge::blank()));
        let Pass { badge } = other;
        join_at(&self.board, &mut seat, seat_of(badge));
        pass.badge = badge_of(seat);
    }

    /// Tries once for the turn, by one compare-exchange, and makes a step of the actor if it is free and the value
    /// is not halted.
    #[tactic(auto, using(crate::proofs::Owns::goes_turned))]
    pub fn try_turn(&self, pass: &mut Pass, actor: Actor) -> Turn
        requires own { pass.old.desk ≡ self.now }
        requires actor { actor < length self.now.script.actors }
        ensures turn { TurnsTo S.legal S.due actor pass.old result pass.new }
        ensures goes { GoesOn pass.old pass.new }
        ensures once { OwnsOnce pass.new.own pass.new.list }
    {
        let mut seat = seat_of(mem::replace(&mut pass.badge, Badge::blank()));
        let turn = turn_at(&self.board, &mut seat, actor);
        pass.badge = badge_of(seat);
        turn
    }

    /// The published length of the history, which each list that is shown later has at least.
    pub fn count(&self, pass: &mut Pass) -> u64
        requires { pass.old.desk ≡ self.now }
        ensures pass { pass.new ≡ record pass.old { loaded = result } }
        ensures more { (pass.old.loaded ≤ result) × (length pass.old.list ≤ result) }
        ensures whole { pass.old.shares ≡ all_shares → result ≡ length pass.old.list }
    {
        let mut seat = seat_of(mem::replace(&mut pass.badge, Badge::blank()));
        let count = count_at(&self.board, &mut seat);
        pass.badge = badge_of(seat);
        count
    }

    /// The length of the history just after the last entry that touches the process, 0 if none does. In each list that
    /// is shown later no entry from there up to the last count touches it.
    pub fn mark(&self, pass: &mut Pass, proc: Proc) -> u64
        requires own { pass.old.desk ≡ self.now }
        ensures { pass.new
            ≡ record pass.old {
              marks = pass.old.marks ++ record { proc = proc; at = result; upto = pass.old.loaded }
                  ∷ [];
            } }
    {
        let mut seat = seat_of(mem::replace(&mut pass.badge, Badge::blank()));
        let mark = mark_at(&self.board, &mut seat, proc);
        pass.badge = badge_of(seat);
        mark
    }

    /// Gives the value back for the pass that has all the shares, with a receipt of its history.
    pub fn close(self, last: Pass) -> (S, Receipt)
        requires own { last.desk ≡ self }
        requires whole { last.shares ≡ all_shares }
        ensures value { (S.script result.0 ≡ self.script) × (S.history result.0 ≡ last.list) }
        ensures legal { S.legal self.script last.list }
        ensures halted { (e : StepError) → last.told ≡ Some e → S.halt result.0 ≡ Some e }
        ensures counted { last.loaded ≤ length last.list }
        ensures marked { AreMarks last.list last.marks }
        ensures receipt { result.1 ≡ last.list }
    {
        let seen = Snapshot::of(&last);
        let Turns { board } = self;
        let Pass { badge } = last;
        let (stepped, length) = close_at(board, seat_of(badge));
        (stepped, Receipt { length, last: seen })
    }
}

// The seat of a pass, and back.
pub(crate) fn seat_of<S>(badge: Badge<Knowledge>) -> Seated<S>
    requires { AreResting badge.views }
    ensures idle { IsIdle result × OwnsItsOwn result }
    ensures sight { sight_of badge.table_id badge.views ≡ sight result }
{
    badge.into_seat()
}

pub(crate) fn badge_of<S>(seat: Seated<S>) -> Badge<Knowledge>
    requires { IsIdle seat × OwnsItsOwn seat }
    ensures resting { AreResting result.views }
    ensures sight { sight_of result.table_id result.views ≡ sight seat }
{
    seat.into_badge()
}

// Cuts a seat with one share off.
fn split_at<S: Stepped>(board: &Board<S>, seat: &mut Seated<S>) -> Seated<S>
    requires table { (seat.old.table_id ≡ board.now.shared.table_id) × IsSized seat.old.table_id }
    requires idle { IsIdle seat.old }
    requires shares { 1 < seat.old.me.0.shares }
    ensures old { IsIdle seat.new
        × (sight seat.new ≡ record (sight seat.old) { shares = (sight seat.old).shares - 1 }) }
    ensures new { IsIdle result × OwnsItsOwn result × (sight result ≡ half_of (sight seat.old)) }
{
    board.shared.split_seat::<Cut>(seat)
}

// Takes in a seat, and compares what the two have seen.
fn join_at<S: Stepped>(board: &Board<S>, seat: &mut Seated<S>, other: Seated<S>)
    requires table { (seat.old.table_id ≡ board.now.shared.table_id) × (other.table_id ≡ board.now.shared.table_id)
        × IsSized seat.old.table_id }
    requires idle { IsIdle seat.old × IsIdle other }
    ensures idle { IsIdle seat.new × OwnsItsOwn seat.new }
    ensures both { sight seat.new ≡ joined (sight seat.old) (sight other) }
    ensures lists { IsPrefix seat.old.me.0.list seat.new.me.0.list × IsPrefix other.me.0.list seat.new.me.0.list }
{
    board.shared.join_seat::<Glue>(seat, other);
    board.shared.load::<Compare>(seat, COUNT);
}

fn count_at<S: Stepped>(board: &Board<S>, seat: &mut Seated<S>) -> u64
    requires table { (seat.old.table_id ≡ board.now.shared.table_id) × IsSized seat.old.table_id }
    requires idle { IsIdle seat.old }
    ensures seat { Becomes seat.old seat.new (told_count seat.old.me.0 result) [] }
    ensures more { (seat.old.me.0.loaded ≤ result) × (length seat.old.me.0.list ≤ result) }
    ensures whole { seat.old.me.0.shares ≡ all_shares → result ≡ length seat.old.me.0.list }
{
    board.shared.load::<Count>(seat, COUNT)
}

fn mark_at<S: Stepped>(board: &Board<S>, seat: &mut Seated<S>, proc: Proc) -> u64
    requires table { (seat.old.table_id ≡ board.now.shared.table_id) × IsSized seat.old.table_id }
    requires idle { IsIdle seat.old }
    ensures { Becomes seat.old seat.new (told_mark seat.old.me.0 proc result) [] }
{
    board
        .shared
        .load::<Mark>(seat, proc.number() as usize + MARKS)
}

// The value, and the length of its history.
fn close_at<S: Stepped>(board: Board<S>, seat: Seated<S>) -> (S, u64)
    requires table { (seat.table_id ≡ board.shared.table_id) × IsSized seat.table_id }
    requires idle { IsIdle seat }
    requires whole { seat.me.0.shares ≡ all_shares }
    ensures script { S.script result.0 ≡ S.script board.shared.key.value }
    ensures history { S.history result.0 ≡ seat.me.0.list }
    ensures legal { S.legal (S.script result.0) (S.history result.0) }
    ensures halted { (e : StepError) → seat.me.0.told ≡ Some e → S.halt result.0 ≡ Some e }
    ensures counted { seat.me.0.loaded ≤ length seat.me.0.list }
    ensures marked { AreMarks seat.me.0.list seat.me.0.marks }
    ensures length { result.1 ≡ length seat.me.0.list }
{
    let mut closed = board.close_with(seat);
    let value = closed.take(0);
    closed.free();
    match value {
        Some(stepped) => {
            let length = stepped.length();
            (stepped, length)
        }
        None => unreachable!(),
    }
}

// Takes the turn and the value. None if another seat has it.
pub fn take<S: Stepped>(board: &Board<S>, seat: &mut Seated<S>) -> Option<S>
    requires table { (seat.old.table_id ≡ board.now.shared.table_id) × IsSized seat.old.table_id }
    requires idle { IsIdle seat.old }
    ensures { Takes S.script S.history S.halt seat.old result seat.new }
{
    if board.shared.compare_exchange::<Take>(seat, TURN, 0, 1) != 0 {
        return None;
    }
    board.shared.exchange(seat, 0, None)
}

// Gives the value and the turn back.
pub(crate) fn give<S: Stepped>(board: &Board<S>, seat: &mut Seated<S>, stepped: S)
    requires table { (seat.old.table_id ≡ board.now.shared.table_id) × IsSized seat.old.table_id }
    requires givable { IsGivable S.script S.history S.halt seat.old stepped }
    requires list { S.history stepped ≡ seat.old.me.0.list }
    ensures { Becomes seat.old seat.new (freed seat.old.me.0 (S.halt stepped)) [] }
{
    board.shared.exchange(seat, 0, Some(stepped));
    board.shared.store::<Give>(seat, TURN, 0);
}

// Raises the mark of the process that the last entry touches.
fn raise<S: Stepped>(board: &Board<S>, seat: &mut Seated<S>, touched: Option<Proc>, length: u64)
    requires table { (seat.old.table_id ≡ board.now.shared.table_id) × IsSized seat.old.table_id }
    requires ahead { IsAhead seat.old.me.0 }
    requires touched { touched ≡ last_touched seat.old.me.0.list }
    requires length { length ≡ size seat.old.me.0.list }
    ensures { Becomes seat.old seat.new (raised seat.old.me.0) seat.old.me.1 }
{
    if let Some(proc) = touched {
        board
            .shared
            .store::<Raise>(seat, proc.number() as usize + MARKS, length);
    }
}

// Gives the value and the turn back, if the history is longer by an entry, which is published.
fn give_longer<S: Stepped>(board: &Board<S>, seat: &mut Seated<S>, stepped: S, entry: &Entry)
    requires table { (seat.old.table_id ≡ board.now.shared.table_id) × IsSized seat.old.table_id }
    requires givable { IsGivable S.script S.history S.halt seat.old stepped }
    requires list { S.history stepped ≡ seat.old.me.0.list ++ entry.now ∷ [] }
    ensures { Becomes seat.old seat.new
        (freed (even (raised (grown seat.old.me.0 (S.history stepped) entry.now))) (S.halt stepped)) [] }
{
    let _ = entry;
    let length = stepped.length();
    let touched = stepped.touched();
    board.shared.exchange(seat, 0, Some(stepped));
    board.shared.load::<Note>(seat, COUNT);
    raise(board, seat, touched, length);
    board.shared.store::<Publish>(seat, COUNT, length);
    board.shared.store::<Give>(seat, TURN, 0);
}

// Makes a turn.
fn turn_at<S: Stepped>(board: &Board<S>, seat: &mut Seated<S>, actor: Actor) -> Turn
    requires table { (seat.old.table_id ≡ board.now.shared.table_id) × IsSized seat.old.table_id }
    requires idle { IsIdle seat.old }
    requires actor { actor < length seat.old.me.0.script.actors }
    ensures turn { TurnsTo S.legal S.due actor (sight seat.old) result (sight seat.new) }
    ensures seat { (seat.new.table_id ≡ seat.old.table_id) × IsIdle seat.new }
{
    let Some(mut stepped) = take(board, seat) else {
        return Turn::Busy;
    };
    if stepped.halted().is_some() {
        give(board, seat, stepped);
        return Turn::Halted;
    }
    match stepped.step(actor) {
        Ok(Progress::Did(entry)) => {
            give_longer(board, seat, stepped, &entry);
            Turn::Did(Progress::Did(entry))
        }
        Ok(Progress::Waiting(why)) => {
            give(board, seat, stepped);
            Turn::Did(Progress::Waiting(why))
        }
        Ok(Progress::Idle) => {
            give(board, seat, stepped);
            Turn::Did(Progress::Idle)
        }
        Err(error) => {
            give(board, seat, stepped);
            Turn::Stopped(error)
        }
    }
}
