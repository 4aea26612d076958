// Room for an entry, made before anything changes. Most kinds need none but the history's.
ghost use Rattle.std.specs.Prelude.{◌≡◌, ◌≤◌, OnOk};
ghost use Rattle.hm_actors.specs.Actors.{goings, ActorsRoom};
ghost use Rattle.hm_mirrors.specs.Mirrors.{reserved, room_for, MirrorsRoom};
ghost use Rattle.hm_notifiers.specs.NotifiersValue.{SameNotifiers, NotifiersRoom};
ghost use Rattle.hm_tables.specs.Values.{size_in};
ghost use Rattle.hm_tables.specs.Steps.{TablesFit, TablesRoom, SameTables};

use hm_actors::Actors;
use hm_base::NoMemory;
use hm_history::{Entry, History, Kind};
use hm_mirrors::Mirrors;
use hm_notifiers::AllNotifiers;
use hm_tables::PageTables;

#[inline(always)]
fn reserve_tables(tables: &mut PageTables, kind: &Kind) -> Result<(), NoMemory>
    requires { TablesFit (size_in tables.old.pools) kind.now }
    ensures same { SameTables tables.old tables.new }
    ensures ok { OnOk result (TablesRoom kind.now tables.new) }
{
    match kind {
        Kind::Place { .. } => tables.reserve(kind),
        _ => Ok(()),
    }
}

/// Makes room for an entry in each structure that may grow by it; a failure may leave some of it.
#[inline(always)]
pub(crate) fn reserve(
    history: &mut History,
    tables: &mut PageTables,
    mirrors: &mut Mirrors,
    actors: &mut Actors,
    notifiers: &mut AllNotifiers,
    entry: &Entry,
) -> Result<(), NoMemory>
    requires { TablesFit (size_in tables.old.pools) entry.now.kind }
    ensures history { history.new.entries ≡ history.old.entries }
    ensures tables { SameTables tables.old tables.new }
    ensures mirrors { mirrors.new ≡ reserved (room_for entry.now.kind mirrors.new) entry.now.kind mirrors.old }
    ensures actors { goings actors.new ≡ goings actors.old }
    ensures notifiers { SameNotifiers notifiers.old notifiers.new }
    ensures history_room { OnOk result (1 ≤ history.new.spare) }
    ensures tables_room { OnOk result (TablesRoom entry.now.kind tables.new) }
    ensures mirrors_room { OnOk result (MirrorsRoom entry.now.kind mirrors.new) }
    ensures actors_room { OnOk result (ActorsRoom entry.now.actor entry.now.kind actors.new) }
    ensures notifiers_room { OnOk result (NotifiersRoom entry.now.kind notifiers.new) }
{
    mirrors.reserve(&entry.kind)?;
    history.reserve(1)?;
    reserve_tables(tables, &entry.kind)?;
    actors.reserve(entry.actor, &entry.kind)?;
    notifiers.reserve(&entry.kind)
}

/// An entry for which there is no memory is dropped here, apart from where it would be added.
#[inline(never)]
pub(crate) fn lost(_entry: Entry) -> Result<(), NoMemory>
    ensures { OnOk result ⊥ }
{
    Err(NoMemory)
}
