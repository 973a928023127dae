// The status registers, the stack byte and the ID byte, read off an image. The bits of a register are named first, so that its byte
// stands on one line as the data book draws it.
ghost use Rattle.std.specs.Prelude.{◌≡◌, ◌<◌, get_or};
ghost use Rattle.rules.specs.Seen.{atn_seen};
ghost use Rattle.rules.specs.Reads.{scsisigi, sstat0, sstat1, sstat2, sstat3, sstat4, dmastat, id_bytes};
ghost use Rattle.rules.specs.Stack.{stack_place, stack_byte};
ghost use Rattle.image.specs.Image.{IsImage, state_at};

use crate::interrupts::{instat, phasemis};
use crate::selection::{seldi, seldo, selingo, selto};
use image::bits::{
    atno, busfree, enstk32, fwerr, phasechg, reqinit, scsiperr, scsirsti, spiordy, syncerr, write,
};
use image::bus::{ack_seen, bsy_seen, cd_seen, io_seen, msg_seen, req_seen, sel_seen};
use image::layout::{
    HOST_COUNT, IDENTITY, Image, LINES_CONTROL, OFFSET, POINTER, SCSI_COUNT, STACK_BYTES,
};
use laws::byte_of;
use stack::place_of;

// ATN is driven by others or by the chip.
#[tactic(auto, unfolding(rules::specs::Seen::atn_seen, image::specs::Image::state_at))]
fn atn_seen(m: &Image) -> bool
    ensures { result ≡ atn_seen (state_at m.now) }
{
    ((m[LINES_CONTROL] >> 4) % 2 == 1) | atno(m)
}

// 343h: the lines seen.
#[tactic(auto, unfolding(rules::specs::Reads::scsisigi))]
pub fn scsisigi(m: &Image) -> u8
    ensures { result ≡ scsisigi (state_at m.now) }
{
    let sel = sel_seen(m);
    let bsy = bsy_seen(m);
    let acked = ack_seen(m);
    let cd = cd_seen(m);
    let io = io_seen(m);
    let msg = msg_seen(m);
    let atn = atn_seen(m);
    let req = req_seen(m);
    byte_of(cd, io, msg, atn, sel, bsy, req, acked)
}

// 34Bh
#[tactic(auto, unfolding(rules::specs::Reads::sstat0))]
pub fn sstat0(m: &Image) -> u8
    ensures { result ≡ sstat0 (state_at m.now) }
{
    let seldo = seldo(m);
    let seldi = seldi(m);
    let selingo = selingo(m);
    let spiordy = spiordy(m);
    byte_of(false, seldo, seldi, selingo, false, false, spiordy, false)
}

// 34Ch: ATNTARG, bit 6, is not ruled and reads 0.
#[tactic(auto, unfolding(rules::specs::Reads::sstat1))]
pub fn sstat1(m: &Image) -> u8
    ensures { result ≡ sstat1 (state_at m.now) }
{
    let selto = selto(m);
    let phasemis = phasemis(m);
    let scsirsti = scsirsti(m);
    let busfree = busfree(m);
    let scsiperr = scsiperr(m);
    let phasechg = phasechg(m);
    let reqinit = reqinit(m);
    let atntarg = false;
    byte_of(
        selto, atntarg, scsirsti, phasemis, busfree, scsiperr, phasechg, reqinit,
    )
}

// 34Dh
pub fn sstat2(m: &Image) -> u8
    requires { IsImage m.now }
    ensures { result ≡ sstat2 (state_at m.now) }
{
    let count = m[SCSI_COUNT];
    byte_of(
        false,
        false,
        m[OFFSET] != 0,
        count == 0,
        count == 8,
        false,
        false,
        false,
    ) + count % 8
}

// 34Eh
pub fn sstat3(m: &Image) -> u8
    requires { IsImage m.now }
    ensures { result ≡ sstat3 (state_at m.now) }
{
    registers::sstat3(m[OFFSET], m[SCSI_COUNT])
}

// 34Fh
#[tactic(auto, unfolding(rules::specs::Reads::sstat4))]
pub fn sstat4(m: &Image) -> u8
    ensures { result ≡ sstat4 (state_at m.now) }
{
    let syncerr = syncerr(m);
    let fwerr = fwerr(m);
    byte_of(false, false, false, false, false, syncerr, fwerr, false)
}

// 354h
pub fn dmastat(m: &Image) -> u8
    requires { IsImage m.now }
    ensures { result ≡ dmastat (state_at m.now) }
{
    let count = m[HOST_COUNT];
    byte_of(
        false,
        !write(m) & (2 <= count),
        instat(m),
        count == 128,
        count == 0,
        64 <= count,
        false,
        false,
    )
}

// The place that 35Dh uses.
#[tactic(auto, unfolding(rules::specs::Stack::stack_place, image::specs::Image::state_at))]
fn stack_place(m: &Image) -> u8
    ensures { result ≡ stack_place (state_at m.now).registers.dmacntrl1.enstk32 (state_at m.now).stack }
{
    place_of(enstk32(m), m[POINTER])
}

// 35Dh
pub fn stack_byte(m: &Image) -> u8
    ensures { result ≡ stack_byte (state_at m.now).registers.dmacntrl1.enstk32 (state_at m.now).stack }
{
    let at = usize::from(stack_place(m));
    m[STACK_BYTES + at]
}

const ID_BYTES: [u8; 32] = *b"(C)1991ADAPTECAIC6360           ";

// 35Fh: the ID byte at a place.
#[tactic(auto, unfolding(rules::specs::Reads::id_bytes))]
fn id_at(place: u8) -> u8
    requires { place < 32 }
    ensures { result ≡ get_or id_bytes place 0 }
{
    ID_BYTES[usize::from(place)]
}

#[tactic(auto, using(image::proofs::AtPlaces::at_identity), unfolding(image::specs::Image::state_at))]
pub fn id_byte(m: &Image) -> u8
    requires { IsImage m.now }
    ensures { result ≡ get_or id_bytes (state_at m.now).identity 0 }
{
    id_at(m[IDENTITY])
}
