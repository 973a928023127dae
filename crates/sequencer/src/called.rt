// What the sequencer asks of the lines and the registers.
#![tactic(auto, unfolding(image::specs::Image::state_at, rules::specs::Sequencer::called, rules::specs::Sequencer::higher_id, rules::specs::Sequencer::timeout))]

ghost use Rattle.std.specs.Prelude.{◌≡◌};
ghost use Rattle.rules.specs.Sequencer.{timeout, asked_by, called, higher_id};
ghost use Rattle.image.specs.Image.{state_at};

use image::bits::{bsy_of_others, sel_of_others};
use image::bus::io_seen;
use image::layout::{Image, LINES_DATA, SCSIID, SCSISEQ, SCSISIG, SXFRCTL1};
use laws::bit_of;
use registers::bytes::{Stored, scsisig_of};
use rules::registers::{Scsiseq, Sxfrctl1};

// "Asked: ENSELO set and TEMODEO clear"
pub fn asked(m: &Image, enselo: bool) -> bool
    ensures { result ≡ asked_by enselo (state_at m.now).registers.scsiseq.temodeo }
{
    enselo & !Scsiseq::from_byte(m[SCSISEQ]).temodeo
}

// "Called: ENRESELI, others drive SEL and IO and the data bit of OID, BSY not seen."
pub fn called(m: &Image) -> bool
    ensures { result ≡ called (state_at m.now) }
{
    let q = Scsiseq::from_byte(m[SCSISEQ]);
    let g = scsisig_of(false, m[SCSISIG]);
    let id = bit_of(u32::from(m[LINES_DATA]), u32::from((m[SCSIID] >> 4) % 8));
    q.enrseli & sel_of_others(m) & io_seen(m) & id & !(bsy_of_others(m) | g.bsyo)
}

// "others drive a data bit above OID"
pub fn higher_id(m: &Image) -> bool
    ensures { result ≡ higher_id (state_at m.now) }
{
    let above = u32::from((m[SCSIID] >> 4) % 8) + 1;
    0 < u32::from(m[LINES_DATA]) >> above
}

// "the limit of STIMESEL"
pub fn timeout(m: &Image) -> u32
    ensures { result ≡ timeout (state_at m.now).registers }
{
    let q = Sxfrctl1::from_byte(m[SXFRCTL1]);
    if q.stimesel1 {
        if q.stimesel0 { 640000 } else { 1280000 }
    } else {
        if q.stimesel0 { 2560000 } else { 5120000 }
    }
}
