// What a snapshot tells.
ghost use Rattle.std.specs.Prelude.{◌≡◌};
ghost use Rattle.hm_base.specs.PlaceWords as words;

use crate::{Dev, Place};

/// The code for a page at this place, as two hexadecimal digits print it: nothing, a migration entry
/// or another device's page is 00; the zero page 11; system memory 01, writable 02; the device's own
/// memory 21, writable 22; an exclusive page 31.
pub fn snap_code(place: Place, dev: Dev) -> u8
    ensures { result ≡ words.snap_code place dev }
{
    match place {
        Place::Empty | Place::Moving { .. } => 0,
        Place::Zero => 0x11,
        Place::Sys {
            number: _,
            writable,
        } => if writable { 0x02 } else { 0x01 },
        Place::Own {
            dev: of,
            number: _,
            writable,
        } => {
            if dev != of {
                0
            } else if writable {
                0x22
            } else {
                0x21
            }
        }
        Place::Exclusive { .. } => 0x31,
    }
}
