// "every unused bit 0": each byte that has unused bits is the byte that what it stands for has again.
ghost use Rattle.std.specs.Prelude.{◌≡◌, eqb};
ghost use Rattle.rules.specs.Registers.{sxfrctl0_of, sxfrctl0_byte, sxfrctl1_of, sxfrctl1_byte, scsirate_of, scsiid_of, simode0_of, simode0_byte, dmacntrl0_of, dmacntrl0_byte, dmacntrl1_of, dmacntrl1_byte};
ghost use Rattle.image.specs.Image.{scsirate_byte, scsiid_byte, latches_of, latches_byte};
ghost use Rattle.saved.specs.Tests.{registers_clear, others_clear};

use image::bytes::{latches_byte, latches_of};
use image::layout::{
    ACK, DMACNTRL0, DMACNTRL1, IDENTITY, Image, KEPT_PARITY, LATCHES, LINES_UPPER, POINTER, SCSIID,
    SCSIRATE, SELECTION_LATCHES, SIMODE0, SXFRCTL0, SXFRCTL1,
};
use registers::bytes::{Stored, dmacntrl1_byte, dmacntrl1_of, kept};
use rules::registers::{Dmacntrl0, Simode0, Sxfrctl0, Sxfrctl1};

// A byte that its register keeps whole.
fn is_clear<R: Stored>(v: u8) -> bool
    ensures { result ≡ eqb (R.read (R.written v)) v }
{
    kept::<R>(v) == v
}

// The four below are no `Stored` registers: pairs of fields, 353h that shows the pointer too, and latches.
fn scsirate_clear(v: u8) -> bool
    ensures { result ≡ eqb (scsirate_byte (scsirate_of v)) v }
{
    v < 128
}

fn scsiid_clear(v: u8) -> bool
    ensures { result ≡ eqb (scsiid_byte (scsiid_of v)) v }
{
    (v >> 4) % 8 * 16 + v % 8 == v
}

fn dmacntrl1_clear(v: u8) -> bool
    ensures { result ≡ eqb (dmacntrl1_byte (dmacntrl1_of v) 0) v }
{
    dmacntrl1_byte(dmacntrl1_of(v), 0) == v
}

fn latches_clear(v: u8) -> bool
    ensures { result ≡ eqb (latches_byte (latches_of v)) v }
{
    latches_byte(latches_of(v)) == v
}

// Of the registers.
#[tactic(auto, unfolding(crate::specs::Tests::registers_clear))]
pub fn registers_clear(m: &Image) -> bool
    ensures { result ≡ registers_clear m.now }
{
    is_clear::<Sxfrctl0>(m[SXFRCTL0])
        & is_clear::<Sxfrctl1>(m[SXFRCTL1])
        & scsirate_clear(m[SCSIRATE])
        & scsiid_clear(m[SCSIID])
        & is_clear::<Simode0>(m[SIMODE0])
        & is_clear::<Dmacntrl0>(m[DMACNTRL0])
        & dmacntrl1_clear(m[DMACNTRL1])
}

// Of the rest of the head.
#[tactic(auto, unfolding(crate::specs::Tests::others_clear))]
pub fn others_clear(m: &Image) -> bool
    ensures { result ≡ others_clear m.now }
{
    latches_clear(m[LATCHES])
        & (m[SELECTION_LATCHES] < 16)
        & (m[LINES_UPPER] < 4)
        & (m[ACK] < 2)
        & (m[KEPT_PARITY] < 2)
        & (m[IDENTITY] < 32)
        & (m[POINTER] < 32)
}
