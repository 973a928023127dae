// The components after B, changed in place; what a part of them leaves is said of every array that it takes.
ghost use Rattle.std.specs.Prelude.{◌≡◌, true, false, not, ◌&&◌, ◌||◌, cond, ◌+◌, ◌<◌, get_or};
ghost use Rattle.rules.specs.Numbers.{one};
ghost use Rattle.rules.specs.Registers.{scsiseq_of, scsiseq_byte, sxfrctl0_of, sxfrctl0_byte, scsisig_of};
ghost use Rattle.rules.specs.Seen.{data_seen};
ghost use Rattle.rules.specs.Sequencer.{selection_freed};
ghost use Rattle.image.specs.Image.{image_of, state_at, IsImage, scsisig_byte, status_of, status_byte};
ghost use Rattle.edges.specs.Components.{scsiseq_b, sxfrctl0_b, scsisig_b, transfer_b, status_b};
ghost use Rattle.edges.specs.Room.{Room};
ghost use Rattle.edges.specs.Stored.{registers_stored, offset_stored, status_stored, freed_stored};
ghost use Rattle.datapath.specs.Fits.{byte_stored};
ghost use Rattle.image.specs.Layout.{offset_place, scsi_count_place};

use crate::edges::Edges;
use datapath::scsi::byte_stored;
use image::bits::{automatic_ack, enautoatnp};
use image::bus::data_seen;
use image::bytes::{scsisig_byte, status_byte, status_of};
use image::layout::{
    ACK, Image, OFFSET, SCSI_BYTES, SCSI_COUNT, SCSISEQ, SCSISIG, SEQUENCER, STATUS, SXFRCTL0,
};
use image::sequencer::{sequencer, sequencer_byte};
use registers::bytes::{Stored, scsisig_of};
use rules::chip::{Selection, Sequencer, Status};
use rules::registers::{Scsiseq, Scsisig, Sxfrctl0};

// "340h bits 7-1 ... become 0"
fn scsiseq_b(reset: bool, q: Scsiseq) -> Scsiseq
    ensures { result ≡ scsiseq_b reset q }
{
    if reset {
        Scsiseq {
            scsirsto: q.scsirsto,
            ..Scsiseq::from_byte(0)
        }
    } else {
        q
    }
}

// "SCSIEN become[s] 0"
fn sxfrctl0_b(reset: bool, x: Sxfrctl0) -> Sxfrctl0
    ensures { result ≡ sxfrctl0_b reset x }
{
    Sxfrctl0 {
        scsien: !reset & x.scsien,
        ..x
    }
}

// 343h zeroed, or with ATN
fn scsisig_b(zeroed: bool, attention: bool, g: Scsisig) -> Scsisig
    ensures { result ≡ scsisig_b zeroed attention g }
{
    if zeroed {
        scsisig_of(false, 0)
    } else {
        Scsisig {
            atno: attention | g.atno,
            ..g
        }
    }
}

#[tactic(auto, unfolding(image::specs::Image::state_at))]
fn registers_stored(m: &mut Image, g: Edges)
    ensures { m.new ≡ registers_stored g.rstrises g.paritybad g.free m.old }
{
    let attention = g.paritybad & enautoatnp(m);
    let q = scsiseq_b(g.rstrises, Scsiseq::from_byte(m[SCSISEQ]));
    let x = sxfrctl0_b(g.rstrises, Sxfrctl0::from_byte(m[SXFRCTL0]));
    let s = scsisig_b(
        g.rstrises | g.free,
        attention,
        scsisig_of(false, m[SCSISIG]),
    );
    m[SCSISEQ] = q.to_byte();
    m[SXFRCTL0] = x.to_byte();
    m[SCSISIG] = scsisig_byte(s);
}

// The registers after a bus reset, a parity error and bus free; nothing else changes them here.
pub fn registers_in(m: &mut Image, g: Edges)
    ensures { m.new ≡ cond (g.rstrises || g.paritybad || g.free) (registers_stored g.rstrises g.paritybad g.free m.old) m.old }
{
    if g.rstrises | g.paritybad | g.free {
        registers_stored(m, g);
    }
}

// The byte that is stored; where none is, what is seen need not be known.
pub fn byte_seen(m: &Image, stored: bool) -> u8
    ensures { result ≡ cond stored (data_seen (state_at m.now)) 0 }
{
    if stored { data_seen(m) } else { 0 }
}

// "an inbound byte is stored"
fn scsi_in(m: &mut Image, stored: bool, byte: u8)
    requires { stored ≡ true → get_or m.old scsi_count_place 0 < 8 }
    ensures { m.new ≡ cond stored (byte_stored byte m.old) m.old }
{
    if stored {
        byte_stored(m, byte);
    }
}

fn offset_b(zeroed: bool, within: bool, offset: u8) -> u8
    requires { within ≡ true → offset < 8 }
    ensures { result ≡ cond zeroed 0 (cond within (offset + 1) offset) }
{
    if zeroed {
        0
    } else if within {
        offset + 1
    } else {
        offset
    }
}

// "offset goes up one"; "automatic ACK is released"
#[tactic(auto, unfolding(image::specs::Image::state_at))]
fn offset_in(m: &mut Image, zeroed: bool, within: bool, released: bool)
    requires { within ≡ true → get_or m.old offset_place 0 < 8 }
    ensures { m.new ≡ offset_stored zeroed within released m.old }
{
    let ack = !released & automatic_ack(m);
    m[OFFSET] = offset_b(zeroed, within, m[OFFSET]);
    m[ACK] = ack as u8;
}

// The data path after B; the host FIFO and the counter stay.
pub fn path_in(m: &mut Image, g: Edges, byte: u8)
    requires image { IsImage m.old }
    requires room { Room g (state_at m.old).transfer }
    ensures { m.new ≡ image_of (transfer_b g byte (state_at m.old)) }
{
    scsi_in(m, g.stored, byte);
    offset_in(
        m,
        g.rstrises | g.free,
        g.within,
        g.reqfalls | g.rstrises | g.free,
    );
}

#[tactic(auto, unfolding(crate::specs::Components::status_b))]
fn status_b(g: Edges, changed: bool, t: Status) -> Status
    ensures { result ≡ status_b g changed t }
{
    Status {
        scsirsti: g.rstrises | t.scsirsti,
        busfree: g.free | t.busfree,
        scsiperr: g.paritybad | t.scsiperr,
        phasechg: changed | t.phasechg,
        reqinit: g.reqrises | t.reqinit,
        syncerr: g.late | t.syncerr,
        ..t
    }
}

// The status after B, where the phase changed or not.
pub fn status_in(m: &mut Image, g: Edges, changed: bool)
    ensures { m.new ≡ status_stored (status_b g changed) m.old }
{
    m[STATUS] = status_byte(status_b(g, changed, status_of(m[STATUS])));
}

// SELDO becomes 0, and SELDI where it is noted.
#[tactic(auto, unfolding(rules::specs::Sequencer::selection_freed))]
fn freed(q: Sequencer) -> Sequencer
    ensures { result ≡ selection_freed q }
{
    let status = Selection {
        seldo: false,
        seldi: !q.noted & q.status.seldi,
        ..q.status
    };
    Sequencer {
        noted: false,
        status,
        ..q
    }
}

// "bus free also clears SELDO, and SELDI where noted"
pub fn freed_in(m: &mut Image, free: bool)
    ensures { m.new ≡ freed_stored free m.old }
{
    if free {
        m[SEQUENCER] = sequencer_byte(freed(sequencer(m)));
    }
}
