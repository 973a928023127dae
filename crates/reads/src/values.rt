// The values that reads give, read off an image.
ghost use Rattle.std.specs.Prelude.{◌≡◌, ◌+◌, ◌*◌, get_or};
ghost use Rattle.rules.specs.Reads.{read_of};
ghost use Rattle.rules.specs.Registers.{dmacntrl1_byte};
ghost use Rattle.image.specs.Image.{IsImage, state_at};

use crate::status::{
    dmastat, id_byte, scsisigi, sstat0, sstat1, sstat2, sstat3, sstat4, stack_byte,
};
use image::bus::data_seen;
use image::layout::{
    BRSTCNTRL, COUNTER_HIGH, COUNTER_LOW, COUNTER_MIDDLE, DMACNTRL0, DMACNTRL1, HOST_BYTES,
    HOST_COUNT, Image, POINTER, SCSISEQ, SELID, SIMODE0, SIMODE1, SXFRCTL0, SXFRCTL1,
};
use rules::map::Register;

// 353h: the two bits and the pointer stand apart.
#[tactic(auto, using(image::proofs::AtPlaces::parts_fit, image::proofs::AtPlaces::parts_join))]
fn dmacntrl1(m: &Image) -> u8
    requires { IsImage m.now }
    ensures { result ≡ dmacntrl1_byte (state_at m.now).registers.dmacntrl1 (state_at m.now).stack.pointer }
{
    m[DMACNTRL1] + m[POINTER]
}

// A register that can be read, by its name; those that cannot give 0.
#[tactic(auto, unfolding(rules::specs::Reads::read_of))]
pub fn read_register(m: &Image, register: Register) -> u8
    requires { IsImage m.now }
    ensures { result ≡ read_of (state_at m.now) register }
{
    match register {
        Register::SCSISEQ => m[SCSISEQ],
        Register::SXFRCTL0 => m[SXFRCTL0],
        Register::SXFRCTL1 => m[SXFRCTL1],
        Register::SCSISIGI => scsisigi(m),
        Register::SELID => m[SELID],
        Register::SCSIDAT => data_seen(m),
        Register::SCSIBUS => data_seen(m),
        Register::STCNT0 => m[COUNTER_LOW],
        Register::STCNT1 => m[COUNTER_MIDDLE],
        Register::STCNT2 => m[COUNTER_HIGH],
        Register::SSTAT0 => sstat0(m),
        Register::SSTAT1 => sstat1(m),
        Register::SSTAT2 => sstat2(m),
        Register::SSTAT3 => sstat3(m),
        Register::SSTAT4 => sstat4(m),
        Register::SIMODE0 => m[SIMODE0],
        Register::SIMODE1 => m[SIMODE1],
        Register::DMACNTRL0 => m[DMACNTRL0],
        Register::DMACNTRL1 => dmacntrl1(m),
        Register::DMASTAT => dmastat(m),
        Register::FIFOSTAT => m[HOST_COUNT],
        Register::DMADATA => m[HOST_BYTES],
        Register::BRSTCNTRL => m[BRSTCNTRL],
        Register::REV => 1,
        Register::STACK => stack_byte(m),
        Register::ID => id_byte(m),
        _ => 0,
    }
}

// The two oldest bytes of the host FIFO, 0 for each that is missing. "A word's low byte comes first."
pub fn oldest_word(m: &Image) -> u16
    requires { IsImage m.now }
    ensures { result ≡ get_or (state_at m.now).transfer.host 0 0 + 256 * get_or (state_at m.now).transfer.host 1 0 }
{
    u16::from_le_bytes([m[HOST_BYTES], m[HOST_BYTES + 1]])
}
