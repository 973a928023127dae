// The bits of an image, each by its name in the data book: one function a bit, since the contract of each names another field.
#![tactic(auto, unfolding(crate::specs::Image::state_at))]

ghost use Rattle.std.specs.Prelude.{◌≡◌};
ghost use Rattle.image.specs.Image.{state_at};

use crate::layout::{
    ACK, DMACNTRL0, DMACNTRL1, Image, KEPT_PARITY, LINES_CONTROL, LINES_UPPER, SCSISEQ, SCSISIG,
    SIMODE1, STATUS, SXFRCTL0, SXFRCTL1,
};

// The control bits, as written.
pub fn enautoatnp(m: &Image) -> bool
    ensures { result ≡ (state_at m.now).registers.scsiseq.enautoatnp }
{
    (m[SCSISEQ] >> 1) % 2 == 1
}

pub fn scsirsto(m: &Image) -> bool
    ensures { result ≡ (state_at m.now).registers.scsiseq.scsirsto }
{
    (m[SCSISEQ] >> 0) % 2 == 1
}

pub fn scsien(m: &Image) -> bool
    ensures { result ≡ (state_at m.now).registers.sxfrctl0.scsien }
{
    (m[SXFRCTL0] >> 7) % 2 == 1
}

pub fn dmaen(m: &Image) -> bool
    ensures { result ≡ (state_at m.now).registers.sxfrctl0.dmaen }
{
    (m[SXFRCTL0] >> 6) % 2 == 1
}

pub fn spioen(m: &Image) -> bool
    ensures { result ≡ (state_at m.now).registers.sxfrctl0.spioen }
{
    (m[SXFRCTL0] >> 3) % 2 == 1
}

pub fn enspchk(m: &Image) -> bool
    ensures { result ≡ (state_at m.now).registers.sxfrctl1.enspchk }
{
    (m[SXFRCTL1] >> 5) % 2 == 1
}

pub fn enscsiperr(m: &Image) -> bool
    ensures { result ≡ (state_at m.now).registers.simode1.enscsiperr }
{
    (m[SIMODE1] >> 2) % 2 == 1
}

pub fn atno(m: &Image) -> bool
    ensures { result ≡ (state_at m.now).registers.scsisig.atno }
{
    (m[SCSISIG] >> 4) % 2 == 1
}

pub fn selo(m: &Image) -> bool
    ensures { result ≡ (state_at m.now).registers.scsisig.selo }
{
    (m[SCSISIG] >> 3) % 2 == 1
}

pub fn bsyo(m: &Image) -> bool
    ensures { result ≡ (state_at m.now).registers.scsisig.bsyo }
{
    (m[SCSISIG] >> 2) % 2 == 1
}

pub fn enphasemis(m: &Image) -> bool
    ensures { result ≡ (state_at m.now).registers.simode1.enphasemis }
{
    (m[SIMODE1] >> 4) % 2 == 1
}

pub fn write(m: &Image) -> bool
    ensures { result ≡ (state_at m.now).registers.dmacntrl0.write }
{
    (m[DMACNTRL0] >> 3) % 2 == 1
}

pub fn inten(m: &Image) -> bool
    ensures { result ≡ (state_at m.now).registers.dmacntrl0.inten }
{
    (m[DMACNTRL0] >> 2) % 2 == 1
}

pub fn swint(m: &Image) -> bool
    ensures { result ≡ (state_at m.now).registers.dmacntrl0.swint }
{
    (m[DMACNTRL0] >> 0) % 2 == 1
}

pub fn enstk32(m: &Image) -> bool
    ensures { result ≡ (state_at m.now).registers.dmacntrl1.enstk32 }
{
    (m[DMACNTRL1] >> 6) % 2 == 1
}

// The statuses.
pub fn spiordy(m: &Image) -> bool
    ensures { result ≡ (state_at m.now).status.spiordy }
{
    (m[STATUS] >> 7) % 2 == 1
}

pub fn scsirsti(m: &Image) -> bool
    ensures { result ≡ (state_at m.now).status.scsirsti }
{
    (m[STATUS] >> 6) % 2 == 1
}

pub fn busfree(m: &Image) -> bool
    ensures { result ≡ (state_at m.now).status.busfree }
{
    (m[STATUS] >> 5) % 2 == 1
}

pub fn scsiperr(m: &Image) -> bool
    ensures { result ≡ (state_at m.now).status.scsiperr }
{
    (m[STATUS] >> 4) % 2 == 1
}

pub fn phasechg(m: &Image) -> bool
    ensures { result ≡ (state_at m.now).status.phasechg }
{
    (m[STATUS] >> 3) % 2 == 1
}

pub fn reqinit(m: &Image) -> bool
    ensures { result ≡ (state_at m.now).status.reqinit }
{
    (m[STATUS] >> 2) % 2 == 1
}

pub fn syncerr(m: &Image) -> bool
    ensures { result ≡ (state_at m.now).status.syncerr }
{
    (m[STATUS] >> 1) % 2 == 1
}

pub fn fwerr(m: &Image) -> bool
    ensures { result ≡ (state_at m.now).status.fwerr }
{
    (m[STATUS] >> 0) % 2 == 1
}

// BSY and SEL, where others drive them.
pub fn bsy_of_others(m: &Image) -> bool
    ensures { result ≡ (state_at m.now).lines.bsy }
{
    (m[LINES_CONTROL] >> 2) % 2 == 1
}

pub fn sel_of_others(m: &Image) -> bool
    ensures { result ≡ (state_at m.now).lines.sel }
{
    (m[LINES_CONTROL] >> 3) % 2 == 1
}

// The parity that others drive.
pub fn parity_driven_by_others(m: &Image) -> bool
    ensures { result ≡ (state_at m.now).lines.parity }
{
    (m[LINES_UPPER] >> 1) % 2 == 1
}

// The kept parity of R-2 is bad.
pub fn kept_bad(m: &Image) -> bool
    ensures { result ≡ (state_at m.now).keptbad }
{
    m[KEPT_PARITY] == 1
}

// The automatic ACK.
pub fn automatic_ack(m: &Image) -> bool
    ensures { result ≡ (state_at m.now).transfer.ack }
{
    m[ACK] == 1
}
