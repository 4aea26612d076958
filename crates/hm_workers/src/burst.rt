// What only the actor that goes reads and changes.
use crate::places::{Places, bit_at, pick};
use hm_history::Kind;
use std::sync::atomic::{AtomicU64, Ordering};

/// After one in this many bursts that end where the actor holds nothing, it sleeps.
const REST: u64 = 32;

/// After one in this many of the other bursts it does.
const REST_WITHIN: u64 = 1024;

/// The longest burst has 2 to the power of this many entries.
const LONGEST: u32 = 5;

/// So many bursts more are made by the actor that goes while no other looks.
const PATIENCE: u64 = 4;

/// Where looks are of no use, an actor looks in one of this many waits.
const WAITS: u64 = 64;

/// What only the actor that goes reads and changes. It lies apart from the word that others look at.
#[derive(Drop)]
pub(crate) struct Burst {
    // How many entries the actor may still add.
    left: AtomicU64,
    // What is drawn from: the seed, and how often the actors have looked.
    chance: AtomicU64,
    // A bit for each actor whose last burst ended where it may hold something.
    within: AtomicU64,
    // How many bursts were made since nobody looks.
    alone: AtomicU64,
    // How many waits there were since looks are of no use; 0 if they are of use.
    blind: AtomicU64,
    // The place of the actor that went before.
    partner: AtomicU64,
}

// Whether an actor that has added such an entry holds nothing that others wait for.
fn holds_nothing(kind: &Kind) -> bool {
    match kind {
        Kind::Loaded { .. } | Kind::Stored { .. } | Kind::Failed { .. } | Kind::Refused(_) => true,
        Kind::Mapped { .. } | Kind::Unmapped { .. } | Kind::Protected { .. } => true,
        Kind::Forked { .. } | Kind::Exited(_) | Kind::Attached { .. } | Kind::Detached(_) => true,
        Kind::Migrated(_) | Kind::Evicted(_) | Kind::Removed(_) => true,
        Kind::Seen { .. } | Kind::Excluded { .. } | Kind::Added { .. } | Kind::Runlock(_) => true,
        _ => false,
    }
}

impl Burst {
    pub(crate) fn new(seed: u64) -> Burst {
        Burst {
            left: AtomicU64::new(0),
            chance: AtomicU64::new(seed),
            within: AtomicU64::new(0),
            alone: AtomicU64::new(0),
            blind: AtomicU64::new(0),
            partner: AtomicU64::new(0),
        }
    }

    /// Counts looks, so that what is drawn depends on them.
    pub(crate) fn add_chance(&self, looks: u64) {
        self.chance.fetch_add(looks, Ordering::SeqCst);
    }

    /// Begins a burst. Gives a number that depends on the seed and on all looks so far.
    pub(crate) fn draw(&self) -> u64 {
        let chance = self.chance.fetch_add(1, Ordering::SeqCst);
        let product = chance.wrapping_mul(0x9E37_79B9_7F4A_7C15);
        let mixed = (product ^ (product >> 32)).wrapping_mul(0xD6E8_FEB8_6659_FD93);
        let number = mixed ^ (mixed >> 32);
        let entries = 1 << (number >> 40).trailing_zeros().min(LONGEST);
        self.left.store(entries, Ordering::SeqCst);
        number
    }

    /// Counts an entry. Says whether the burst is over.
    pub(crate) fn is_over(&self) -> bool {
        self.left.fetch_sub(1, Ordering::SeqCst) <= 1
    }

    /// Whether the actor with this bit, whose burst ends with such an entry, sleeps then.
    pub(crate) fn rests(&self, bit: u64, kind: &Kind, number: u64) -> bool {
        if holds_nothing(kind) {
            self.within.fetch_and(!bit, Ordering::SeqCst);
            number % REST == 0
        } else {
            self.within.fetch_or(bit, Ordering::SeqCst);
            number % REST_WITHIN == 0
        }
    }

    /// Notes that the actor with this bit is held by another. Gives the place of one that sleeps and may hold it.
    pub(crate) fn holder(&self, bit: u64, places: Places, number: u64) -> u64 {
        let within = self.within.fetch_or(bit, Ordering::SeqCst);
        pick(within & places.free() & places.asleep(), number)
    }

    /// Whether the actor that goes makes one burst more, when nobody looks.
    pub(crate) fn is_patient(&self) -> bool {
        if self.is_blind() {
            return false;
        }
        let alone = self.alone.fetch_add(1, Ordering::SeqCst);
        if alone >= PATIENCE {
            self.alone.store(0, Ordering::SeqCst);
        }
        alone < PATIENCE
    }

    /// Somebody looks.
    pub(crate) fn is_met(&self) {
        self.alone.store(0, Ordering::SeqCst);
    }

    /// Whether looks are of no use: the two that change places may have one processor.
    pub(crate) fn is_blind(&self) -> bool {
        self.blind.load(Ordering::SeqCst) != 0
    }

    /// Whether an actor that waits now is to look: always, or now and then if looks are of no use.
    pub(crate) fn is_to_look(&self) -> bool {
        let blind = self.blind.load(Ordering::SeqCst);
        if blind == 0 {
            return true;
        }
        self.blind.store(blind.saturating_add(1), Ordering::SeqCst);
        blind % WAITS == 0 || (blind < WAITS && blind.is_power_of_two())
    }

    /// Looks were of use, or they were not.
    pub(crate) fn learn(&self, were_of_use: bool) {
        if were_of_use {
            self.blind.store(0, Ordering::SeqCst);
        } else if !self.is_blind() {
            self.blind.store(1, Ordering::SeqCst);
        }
    }

    /// The place of the actor that went before, if it may go.
    pub(crate) fn partner(&self, places: Places) -> u64 {
        let partner = self.partner.load(Ordering::SeqCst);
        if places.free() & bit_at(partner) == 0 {
            0
        } else {
            partner
        }
    }

    pub(crate) fn set_partner(&self, place: u64) {
        self.partner.store(place, Ordering::SeqCst);
    }
}
