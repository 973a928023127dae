// The register map: document 01, "357h, 359h, 35Ah, 35Bh are absent".
#![tactic(auto)]

ghost use Rattle.std.specs.Prelude.{◌≡◌, cond};
ghost use Rattle.rules.specs.Map.{offset_of};
ghost use Rattle.map.specs.Directions.{mapped_at};

use rules::map::Register;

// What stands on the side of the access.
fn side(write: bool, written: Option<Register>, read: Option<Register>) -> Option<Register>
    ensures { result ≡ cond write written read }
{
    if write { written } else { read }
}

// A register where a write goes and another where a read comes from.
fn by_direction(write: bool, written: Register, read: Register) -> Option<Register>
    ensures { result ≡ cond write (Some written) (Some read) }
{
    side(write, Some(written), Some(read))
}

// What an access finds at an offset from 340h: one decision over 32 offsets and two directions.
pub fn register_at(offset: u8, write: bool) -> Option<Register>
    ensures { result ≡ mapped_at write offset }
{
    match offset {
        0 => Some(Register::SCSISEQ),
        1 => Some(Register::SXFRCTL0),
        2 => Some(Register::SXFRCTL1),
        3 => by_direction(write, Register::SCSISIGO, Register::SCSISIGI),
        4 => side(write, Some(Register::SCSIRATE), None),
        5 => by_direction(write, Register::SCSIID, Register::SELID),
        6 => Some(Register::SCSIDAT),
        7 => side(write, None, Some(Register::SCSIBUS)),
        8 => Some(Register::STCNT0),
        9 => Some(Register::STCNT1),
        10 => Some(Register::STCNT2),
        11 => by_direction(write, Register::CLRSINT0, Register::SSTAT0),
        12 => by_direction(write, Register::CLRSINT1, Register::SSTAT1),
        13 => side(write, None, Some(Register::SSTAT2)),
        14 => by_direction(write, Register::SCSITEST, Register::SSTAT3),
        15 => by_direction(write, Register::CLRSERR, Register::SSTAT4),
        16 => Some(Register::SIMODE0),
        17 => Some(Register::SIMODE1),
        18 => Some(Register::DMACNTRL0),
        19 => Some(Register::DMACNTRL1),
        20 => side(write, None, Some(Register::DMASTAT)),
        21 => side(write, None, Some(Register::FIFOSTAT)),
        22 => Some(Register::DMADATA),
        24 => Some(Register::BRSTCNTRL),
        28 => side(write, None, Some(Register::REV)),
        29 => Some(Register::STACK),
        30 => side(write, Some(Register::TEST), None),
        31 => side(write, None, Some(Register::ID)),
        23 | 25..=27 | 32..=255 => None,
    }
}

// A register's offset from 340h.
pub fn offset_of(register: Register) -> u8
    ensures { result ≡ offset_of register }
{
    match register {
        Register::SCSISEQ => 0x00,
        Register::SXFRCTL0 => 0x01,
        Register::SXFRCTL1 => 0x02,
        Register::SCSISIGI => 0x03,
        Register::SCSISIGO => 0x03,
        Register::SCSIRATE => 0x04,
        Register::SELID => 0x05,
        Register::SCSIID => 0x05,
        Register::SCSIDAT => 0x06,
        Register::SCSIBUS => 0x07,
        Register::STCNT0 => 0x08,
        Register::STCNT1 => 0x09,
        Register::STCNT2 => 0x0A,
        Register::SSTAT0 => 0x0B,
        Register::CLRSINT0 => 0x0B,
        Register::SSTAT1 => 0x0C,
        Register::CLRSINT1 => 0x0C,
        Register::SSTAT2 => 0x0D,
        Register::SSTAT3 => 0x0E,
        Register::SCSITEST => 0x0E,
        Register::SSTAT4 => 0x0F,
        Register::CLRSERR => 0x0F,
        Register::SIMODE0 => 0x10,
        Register::SIMODE1 => 0x11,
        Register::DMACNTRL0 => 0x12,
        Register::DMACNTRL1 => 0x13,
        Register::DMASTAT => 0x14,
        Register::FIFOSTAT => 0x15,
        Register::DMADATA => 0x16,
        Register::BRSTCNTRL => 0x18,
        Register::REV => 0x1C,
        Register::STACK => 0x1D,
        Register::TEST => 0x1E,
        Register::ID => 0x1F,
    }
}
