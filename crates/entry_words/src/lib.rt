// The word of a place: what a page table keeps for a page, in 64 bits (`pte_t`, and the swap entries of
// include/linux/swapops.h for migration, device-private and device-exclusive pages).
#![tactic(auto)]

ghost use Rattle.std.specs.Prelude.{◌≡◌, ◌+◌, ◌≢◌, ◌/◌, ◌%◌, ◌^◌, ◌<◌, ◌≤◌, ◌↔◌, IfOk, OnErr, IsTrue};
ghost use Rattle.hm_base.specs.declared.Place.{Place as AnyPlace};
ghost use Rattle.entry_words.specs.Word.{word, word_of, pool_field, has_word};
ghost use Rattle.entry_words.specs.Reading.{field, pool_from, place_from, place_at};

use hm_base::{Actor, Dev, Frame, Place, PoolId};

/// The word of no place: a reserved bit is set, or its fields do not go together.
#[derive(Clone, Copy, PartialEq, Eq, Debug, thiserror::Error)]
#[error("the word is that of no place")]
pub struct BadWord;

const SYS: u64 = 2;

const OWN: u64 = 3;

const MOVING: u64 = 4;

const EXCLUSIVE: u64 = 5;

/// The word of a place, as a page table keeps it. The layout is this project's; the kinds are those of
/// a page table entry: none, present, or a swap entry for device or migration (include/linux/swapops.h).
pub fn encode(place: Place) -> u64
    ensures word { result ≡ word_of place }
    ensures in_range { IsTrue (has_word place) }
{
    match place {
        Place::Empty => 0,
        Place::Zero => 1,
        Place::Sys { number, writable } => word(SYS, writable, 0, number, 0),
        Place::Own {
            dev,
            number,
            writable,
        } => word(OWN, writable, pool_field(PoolId::Device(dev)), number, 0),
        Place::Moving { frame, writable } => {
            word(MOVING, writable, pool_field(frame.pool), frame.number, 0)
        }
        Place::Exclusive { number, actor } => { word(EXCLUSIVE, false, 0, number, actor.number()) }
    }
}

fn pool_field(pool: PoolId) -> u64
    ensures field { result ≡ pool_field pool }
    ensures below { result < 5 }
{
    match pool {
        PoolId::System => 0,
        PoolId::Device(dev) => 1 + u64::from(dev.number()),
    }
}

// The fields of a word, the highest first.
fn word(kind: u64, writable: bool, pool: u64, number: u32, actor: u32) -> u64
    requires kind { kind < 8 }
    requires pool { pool < 8 }
    requires actor { actor < 16 }
    ensures { result ≡ word kind writable pool number actor }
{
    let frame = u64::from(actor) << 32 | u64::from(number);
    let pooled = frame << 4 | pool;
    let with_right = pooled << 1 | u64::from(writable);
    with_right << 3 | kind
}

/// The place that has this word.
pub fn decode(word: u64) -> Result<Place, BadWord>
    ensures read { IfOk result (λ place. IsTrue (has_word place) × (word_of place ≡ word)) }
    ensures exact { (place : AnyPlace) → IsTrue (has_word place) → word_of place ≡ word → result ≡ Ok place }
    ensures bad { OnErr result ((place : AnyPlace) → IsTrue (has_word place) → word_of place ≢ word) }
{
    match place_at(word) {
        Some(place) => Ok(place),
        None => Err(BadWord),
    }
}

/// The place that the fields of this word make, if they go together.
pub fn place_at(word: u64) -> Option<Place>
    ensures { result ≡ place_at word }
{
    match word {
        0 => Some(Place::Empty),
        1 => Some(Place::Zero),
        _ => place_from(
            field(word, 0, 3),
            field(word, 3, 1) == 1,
            field(word, 4, 4),
            field(word, 8, 32) as u32,
            field(word, 40, 24),
        ),
    }
}

// `bits` bits of a word, from one on.
#[inline]
fn field(word: u64, from: u32, bits: u32) -> u64
    requires within { from + bits ≤ 64 }
    requires proper { bits < 64 }
    requires inside { from < 64 }
    ensures value { result ≡ field word from bits }
    ensures below { result < 2 ^ bits }
{
    (word >> from) & ((1 << bits) - 1)
}

fn place_from(kind: u64, writable: bool, pool: u64, number: u32, rest: u64) -> Option<Place>
    ensures { result ≡ place_from kind writable pool number rest }
{
    match kind {
        SYS if pool == 0 && rest == 0 => Some(Place::Sys { number, writable }),
        OWN if pool >= 1 && pool <= 4 && rest == 0 => Some(Place::Own {
            dev: Dev::new((pool - 1) as u32),
            number,
            writable,
        }),
        MOVING if pool <= 4 && rest == 0 => Some(Place::Moving {
            frame: Frame {
                pool: pool_from(pool),
                number,
            },
            writable,
        }),
        EXCLUSIVE if !writable && pool == 0 && rest < 16 => Some(Place::Exclusive {
            number,
            actor: Actor::new(rest as u32),
        }),
        _ => None,
    }
}

fn pool_from(field: u64) -> PoolId
    requires { field < 5 }
    ensures { result ≡ pool_from field }
{
    if field == 0 {
        PoolId::System
    } else {
        PoolId::Device(Dev::new((field - 1) as u32))
    }
}
