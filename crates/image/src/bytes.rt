// Bytes of an image that no register read gives, each from its parts and to them.
ghost use Rattle.std.specs.Prelude.{◌≡◌, ◌+◌, ◌*◌};
ghost use Rattle.image.specs.Image.{scsisig_byte, scsirate_byte, scsiid_byte, status_of, status_byte, latches_of, latches_byte, upper_byte, control_byte};

use laws::byte_of;
use rules::chip::{Latches, Status};
use rules::records::Lines;
use rules::registers::Scsisig;

pub fn scsisig_byte(g: Scsisig) -> u8
    ensures { result ≡ scsisig_byte g }
{
    byte_of(
        g.cdexp, g.ioexp, g.msgexp, g.atno, g.selo, g.bsyo, g.reqo, g.acko,
    )
}

pub fn status_of(v: u8) -> Status
    ensures { result ≡ status_of v }
{
    Status {
        spiordy: (v >> 7) % 2 == 1,
        scsirsti: (v >> 6) % 2 == 1,
        busfree: (v >> 5) % 2 == 1,
        scsiperr: (v >> 4) % 2 == 1,
        phasechg: (v >> 3) % 2 == 1,
        reqinit: (v >> 2) % 2 == 1,
        syncerr: (v >> 1) % 2 == 1,
        fwerr: (v >> 0) % 2 == 1,
    }
}

pub fn status_byte(t: Status) -> u8
    ensures { result ≡ status_byte t }
{
    byte_of(
        t.spiordy, t.scsirsti, t.busfree, t.scsiperr, t.phasechg, t.reqinit, t.syncerr, t.fwerr,
    )
}

pub fn latches_of(v: u8) -> Latches
    ensures { result ≡ latches_of v }
{
    Latches {
        spiordy: (v >> 5) % 2 == 1,
        scsirsti: (v >> 4) % 2 == 1,
        busfree: (v >> 3) % 2 == 1,
        scsiperr: (v >> 2) % 2 == 1,
        phasechg: (v >> 1) % 2 == 1,
        reqinit: (v >> 0) % 2 == 1,
    }
}

pub fn latches_byte(k: Latches) -> u8
    ensures { result ≡ latches_byte k }
{
    byte_of(
        false, false, k.spiordy, k.scsirsti, k.busfree, k.scsiperr, k.phasechg, k.reqinit,
    )
}

// Parity and RST.
pub fn upper_byte(l: Lines) -> u8
    ensures { result ≡ upper_byte l }
{
    byte_of(false, false, false, false, false, false, l.parity, l.rst)
}

// The lines in the order of 343h.
pub fn control_byte(l: Lines) -> u8
    ensures { result ≡ control_byte l }
{
    byte_of(l.cd, l.io, l.msg, l.atn, l.sel, l.bsy, l.req, l.ack)
}

// A number of three bytes, the lowest first.
pub fn number_of(b0: u8, b1: u8, b2: u8) -> u32
    ensures { result ≡ b0 + 256 * b1 + 65536 * b2 }
{
    u32::from_le_bytes([b0, b1, b2, 0])
}
