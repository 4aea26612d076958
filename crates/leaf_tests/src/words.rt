// The words of places.
use crate::drawn::after;
use entry_words::{BadWord, decode, encode};
use hm_base::{Actor, Dev, Frame, Place, PoolId};

/// Whether the words of frames that are mapped are these.
fn mapped_have_words() -> bool {
    let sys = Place::Sys {
        number: 5,
        writable: true,
    };
    let own = Place::Own {
        dev: Dev::new(0),
        number: 3,
        writable: false,
    };
    encode(Place::Empty) == 0
        && encode(Place::Zero) == 1
        && encode(sys) == 0x50a
        && encode(own) == 0x313
}

/// Whether the words of a frame that migrates, and of one that an actor has to itself, are these.
fn others_have_words() -> bool {
    let frame = Frame {
        pool: PoolId::System,
        number: 5,
    };
    let moving = Place::Moving {
        frame,
        writable: true,
    };
    let exclusive = Place::Exclusive {
        number: 5,
        actor: Actor::new(2),
    };
    encode(moving) == 0x50c && encode(exclusive) == 0x200_0000_0505
}

#[test]
fn words_of_places(rt: HostRuntime) {
    assert!(rt; mapped_have_words() && others_have_words());
}

/// Whether each of these is refused.
fn are_bad(words: &[u64]) -> bool {
    for word in words.iter() {
        if decode(*word) != Err(BadWord) {
            return false;
        }
    }
    true
}

#[test]
fn bad_words(rt: HostRuntime) {
    assert!(rt; are_bad(&[0x8, 0x12, 0x3, 0x7, 0x50a | 1 << 7, 0x50a | 1 << 40, 0x57c]));
}

/// Whether each word that is read is written again, and there is one, of words drawn with few bits set in most of them.
fn are_written_again() -> bool {
    let mut x: u64 = 1;
    let mut some = false;
    for _ in 0..20_000u64 {
        x = after(x);
        let word = x >> 20 & 0xf00_0000_0f7f & !(x >> 30 & 0xf00_0000_0070);
        if let Ok(place) = decode(word) {
            if encode(place) != word {
                return false;
            }
            some = true;
        }
    }
    some
}

#[test]
fn read_words_are_written_again(rt: HostRuntime) {
    assert!(rt; are_written_again());
}
