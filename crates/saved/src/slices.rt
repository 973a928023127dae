// A chip value into a lent slice, and out of one.
ghost use Rattle.std.specs.Prelude.{◌≡◌};
ghost use Rattle.saved.specs.Lent.{refused_chip, chip_read, IsWritten, IsTaken};

use crate::bytes::known;
use crate::is_accepted;
use image::layout::{Image, SIZE};
use rules::chip::Chip;
use step::reset::{power_reset, tidied};

// Why a slice is refused.
#[derive(Clone, Copy, PartialEq, Eq)]
pub enum Refused {
    // It has another length than an image.
    OtherLength,
    // It holds no image that is accepted.
    NotAccepted,
}

// Why a slice is not read; the chip of power reset stands beside the refusal.
#[derive(Clone, Copy)]
pub struct Unread {
    pub why: Refused,
    pub chip: Chip,
}

impl From<Refused> for Unread {
    ghost from_gives = { λ why unread. unread ≡ refused_chip why };

    fn from(why: Refused) -> Unread {
        Unread {
            why,
            chip: power_reset(),
        }
    }
}

// The image of the chip in its one form; nothing is written into a slice of another length, and the answer says so.
#[tactic(auto, using(crate::proofs::Lent::other_length))]
pub fn write_chip(c: Chip, out: &mut [u8]) -> Result<(), Refused>
    ensures { IsWritten c out.old out.new result }
{
    if out.len() != SIZE {
        return Err(Refused::OtherLength);
    }
    let mut m = [0u8; SIZE];
    chips::store(tidied(c), &mut m);
    out.copy_from_slice(&m);
    Ok(())
}

// The image in a slice that holds one. A slice is no array, so the image is tested, and then read or changed, in a copy. The copy is
// lent: handed out in the result it was copied again and again, a third more time for a call. Not inlined, a call took 4 ns more of 65.
#[tactic(auto, using(crate::proofs::Lent::length_refused, crate::proofs::Acceptance::accepted_is))]
#[inline(always)]
pub fn taken(image: &[u8], m: &mut Image) -> Result<(), Refused>
    ensures { IsTaken image.now m.old m.new result }
{
    if image.len() != SIZE {
        return Err(Refused::OtherLength);
    }
    m.copy_from_slice(image);
    known(m);
    if is_accepted(m) {
        Ok(())
    } else {
        Err(Refused::NotAccepted)
    }
}

// The chip whose image a slice holds, or the refusal.
#[tactic(auto, unfolding(crate::specs::Lent::chip_read))]
pub fn read_chip(image: &[u8]) -> Result<Chip, Unread>
    ensures { result ≡ chip_read image.now }
{
    let mut m = [0u8; SIZE];
    taken(image, &mut m)?;
    Ok(chips::load(&m))
}
