// The records of a migration, with room kept ahead.
ghost use Rattle.std.specs.Prelude.{◌≡◌, ℕ, Bool, ◌+◌, ◌-◌, ◌≤◌, [], ◌∷◌, ◌++◌, ◌==◌, true, false, None, length, map};
ghost use Rattle.std.specs.Prelude.{OnOk, OnErr, IfOk, if◌then◌else◌};
ghost use Rattle.hm_history.specs.Kernel.Going.{with_record, recorded_at, recorded_body, recorded};
ghost use Rattle.hm_base.specs.PlaceWords.{moving_frame};
ghost use Rattle.hm_history.specs.declared.phases.Migrating.{Migrating as Record};
ghost use Rattle.hm_actors.specs.Coming.{first_from};
ghost use Rattle.hm_actors.specs.Actors.{adds_to, adds_at, spare_next};

use crate::places::{from_page, put, rises_by};
use hm_base::{Frame, NoMemory, Page, Place};
use hm_history::Kind;
use hm_history::phases::{Body, Migrating, Phase};
use std::alloc::Global;
use std::marker::Model;

/// The pages that a migration has found so far. `rising` tells that each is known to be above those before it.
#[derive(Drop)]
pub struct Records {
    items: Vec<Migrating>,
    room: u64,
    rising: bool,
}

impl Model for Records {
    ghost use Rattle.std.specs.Prelude.{◌≡◌, ◌+◌, ◌≤◌, true, vec_len, vec_capacity};
    ghost use Rattle.hm_actors.specs.Actors.{RecordsValue};
    ghost use Rattle.hm_actors.specs.Rising.{Rises};

    ghost Value = { RecordsValue };

    ghost view = { λ x. record { items = x.items.items; spare = x.room } };

    ghost invariant = { λ x.
        (x.room + vec_len x.items ≤ vec_capacity x.items) × (x.rising ≡ true → Rises x.items.items) };
}

fn frame_found(place: &Place) -> Option<Frame>
    ensures { result ≡ moving_frame place.now }
{
    match place {
        Place::Moving { frame, writable: _ } => Some(*frame),
        _ => None,
    }
}

impl Records {
    /// No record, and room for one.
    pub(crate) fn with_room(alloc: Global) -> Result<Records, NoMemory>
        ensures { IfOk result (λ x. x ≡ record { items = []; spare = 1 }) }
    {
        let mut items = Vec::new(alloc);
        items.try_reserve(1)?;
        Ok(Records {
            items,
            room: 1,
            rising: true,
        })
    }

    /// These records, and room for one more.
    pub fn of(alloc: Global, records: &[Migrating]) -> Result<Records, NoMemory>
        ensures { IfOk result (λ x. x ≡ record { items = records.now; spare = 1 }) }
    {
        let mut items = Vec::with_capacity(alloc, records.len())?;
        items.extend_from_slice(records)?;
        items.try_reserve(1)?;
        Ok(Records {
            items,
            room: 1,
            rising: false,
        })
    }

    /// The records, in the order in which they came.
    pub fn as_slice(&self) -> &[Migrating]
        ensures { result.now ≡ self.now.items }
    {
        self.items.as_slice()
    }

    /// The records from the page on; those before it are among them if the order is not known.
    pub(crate) fn from_page(&self, page: u64) -> &[Migrating]
        ensures { (test : Record → Bool) → first_from test page result.now ≡ first_from test page self.now.items }
    {
        if self.rising {
            from_page(&self.items, page)
        } else {
            &self.items
        }
    }

    /// Makes room for one record more; a failure leaves the room as it was.
    pub fn reserve(&mut self) -> Result<(), NoMemory>
        ensures room { OnOk result (1 ≤ self.new.spare) }
        ensures same { self.new.items ≡ self.old.items }
        ensures err { OnErr result (self.new ≡ self.old) }
    {
        if self.room == 0 {
            self.items.try_reserve(1)?;
            self.room = 1;
        }
        Ok(())
    }

    fn push(&mut self, page: Page, source: Option<Frame>)
        requires { 1 ≤ self.old.spare }
        ensures { self.new
            ≡ record {
              items = self.old.items ++ record { page = page; source = source; dest = None; moved = false }
                  ∷ [];
              spare = self.old.spare - 1;
            } }
    {
        self.room -= 1;
        self.rising = rises_by(&self.items, self.rising, page);
        match self.items.push(Migrating {
            page,
            source,
            dest: None,
            moved: false,
        }) {
            Ok(_) => (),
            Err(_) => unreachable!(),
        }
    }

    // In place of what there is of its page.
    fn put(&mut self, migrating: Migrating)
        ensures { self.new ≡ record { items = with_record migrating self.old.items; spare = self.old.spare } }
    {
        put(&mut self.items, self.rising, &migrating);
    }

    fn step_moves(&mut self, page: Option<Migrating>, kind: &Kind)
        ensures { self.new ≡ record { items = recorded_at page self.old.items kind.now; spare = self.old.spare } }
    {
        if let Some(mut migrating) = page {
            match kind {
                Kind::Take(frame) => {
                    migrating.dest = Some(*frame);
                    self.put(migrating);
                }
                Kind::Committed { .. } => {
                    migrating.moved = true;
                    self.put(migrating);
                }
                _ => (),
            }
        }
    }

    fn step_body(&mut self, body: &Body, kind: &Kind)
        requires { adds_to body.now kind.now ≡ true → 1 ≤ self.old.spare }
        ensures { self.new
            ≡ record {
              items = recorded_body body.now self.old.items kind.now;
              spare = if adds_to body.now kind.now then self.old.spare - 1 else self.old.spare;
            } }
    {
        match (body, kind) {
            (Body::Select { .. }, Kind::Fresh { proc: _, page }) => self.push(*page, None),
            (
                Body::Select { .. },
                Kind::Place {
                    proc: _,
                    page,
                    place,
                },
            ) => self.push(*page, frame_found(place)),
            (
                Body::Fresh { by },
                Kind::Place {
                    proc: _,
                    page,
                    place: _,
                },
            ) => self.put(Migrating {
                page: *page,
                source: None,
                dest: Some(*by),
                moved: true,
            }),
            _ => (),
        }
    }

    /// The records after an entry at this phase, if the migration has come to this record.
    pub fn step(&mut self, top: &Phase, page: Option<Migrating>, kind: &Kind)
        requires room { adds_at top.now kind.now ≡ true → 1 ≤ self.old.spare }
        ensures { self.new
            ≡ record {
              items = recorded top.now page self.old.items kind.now;
              spare = spare_next top.now kind.now self.old.spare;
            } }
    {
        match top {
            Phase::Guard {
                proc: _,
                span: _,
                overlapped: _,
                told: _,
                body,
            } => self.step_body(body, kind),
            Phase::Moves { .. } => self.step_moves(page, kind),
            _ => (),
        }
    }
}
