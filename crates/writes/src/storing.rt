// What a write stores in the registers, in place.
ghost use Rattle.std.specs.Prelude.{◌≡◌, not, false, ◌&&◌};
ghost use Rattle.rules.specs.Map.{offset_of};
ghost use Rattle.rules.specs.Numbers.{bit};
ghost use Rattle.rules.specs.Registers.{scsisig_of};
ghost use Rattle.rules.specs.StepA.{registers_a, with_atn};
ghost use Rattle.rules.specs.declared.records.Event.TheVariants.{Write};
ghost use Rattle.rules.specs.Changed.{with_registers};
ghost use Rattle.image.specs.Image.{IsImage, image_of, state_at, scsisig_byte};
ghost use Rattle.writes.specs.WrittenRegister.{Written};

use image::bits::atno;
use image::bytes::scsisig_byte;
use image::layout::{
    BRSTCNTRL, DMACNTRL0, DMACNTRL1, Image, SCSIDAT, SCSIID, SCSIRATE, SCSISEQ, SCSISIG, SIMODE0,
    SIMODE1, SXFRCTL0, SXFRCTL1,
};
use registers::bytes::{dmacntrl1_byte, dmacntrl1_of, kept, scsisig_of};
use rules::map::Register;
use rules::registers::{Dmacntrl0, Scsiseq, Scsisig, Simode0, Simode1, Sxfrctl0, Sxfrctl1};

// 34Ch: "bit 6 clears ATN".
fn atn_cleared(sig: u8, value: u8) -> u8
    ensures { result ≡ scsisig_byte (with_atn (not (bit value 6) && bit sig 4) (scsisig_of false sig)) }
{
    scsisig_byte(Scsisig {
        atno: !((value >> 6) % 2 == 1) & ((sig >> 4) % 2 == 1),
        ..scsisig_of(false, sig)
    })
}

// A register that a write finds: its byte without the bits that are not stored. (A type for the registers that a write finds would
// only be opened again by each match.)
pub fn stored(m: &mut Image, register: Register, value: u8)
    requires image { IsImage m.old }
    requires written { Written register }
    ensures { m.new ≡ image_of (with_registers (registers_a (state_at m.old).registers (Write (offset_of register) value)) (state_at m.old)) }
{
    match register {
        Register::SCSISEQ => m[SCSISEQ] = kept::<Scsiseq>(value),
        Register::SXFRCTL0 => m[SXFRCTL0] = kept::<Sxfrctl0>(value),
        Register::SXFRCTL1 => m[SXFRCTL1] = kept::<Sxfrctl1>(value),
        Register::SCSISIGO => m[SCSISIG] = scsisig_byte(scsisig_of(atno(m), value)),
        Register::SCSIRATE => m[SCSIRATE] = value % 128,
        Register::SCSIID => m[SCSIID] = (value >> 4) % 8 * 16 + value % 8,
        Register::SCSIDAT => m[SCSIDAT] = value,
        Register::CLRSINT1 => m[SCSISIG] = atn_cleared(m[SCSISIG], value),
        Register::SIMODE0 => m[SIMODE0] = kept::<Simode0>(value),
        Register::SIMODE1 => m[SIMODE1] = kept::<Simode1>(value),
        Register::DMACNTRL0 => m[DMACNTRL0] = kept::<Dmacntrl0>(value),
        Register::DMACNTRL1 => m[DMACNTRL1] = dmacntrl1_byte(dmacntrl1_of(value), 0),
        Register::BRSTCNTRL => m[BRSTCNTRL] = value,
        _ => {}
    }
}
