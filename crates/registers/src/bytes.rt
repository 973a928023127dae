// Each stored register from the byte written and to the byte read back: reserved bits are dropped, and read as 0.
ghost use Rattle.std.specs.Prelude.{◌≡◌, ℕ, ◌%◌};
ghost use Rattle.rules.specs.Registers.{scsiseq_of, scsiseq_byte, sxfrctl0_of, sxfrctl0_byte, sxfrctl1_of, sxfrctl1_byte, simode0_of, simode0_byte, simode1_of, simode1_byte, dmacntrl0_of, dmacntrl0_byte, scsisig_of, scsirate_of, scsiid_of, dmacntrl1_of, dmacntrl1_byte};
ghost use Rattle.registers.specs.Kept.{scsiseq_back, sxfrctl0_back, sxfrctl1_back, simode0_back, simode1_back, dmacntrl0_back};

use laws::byte_of;
use rules::registers::{
    Dmacntrl0, Dmacntrl1, Scsiid, Scsirate, Scsiseq, Scsisig, Simode0, Simode1, Sxfrctl0, Sxfrctl1,
};

// A stored register and its byte: what a write of the byte leaves, and what is read back.
pub trait Stored: Copy {
    ghost written: { ℕ → Self };

    ghost read: { Self → ℕ };

    fn from_byte(v: u8) -> Self
        ensures { result ≡ written v };

    fn to_byte(self) -> u8
        ensures { result ≡ read self };

    // Nothing that is stored is lost on the way through its byte.
    ghost kept: { (r : Self) → written (read r) ≡ r };
}

// A byte without the bits that its register does not keep.
pub fn kept<R: Stored>(v: u8) -> u8
    ensures { result ≡ R.read (R.written v) }
{
    R::from_byte(v).to_byte()
}

// 340h
impl Stored for Scsiseq {
    ghost written = { scsiseq_of };

    ghost read = { scsiseq_byte };

    fn from_byte(v: u8) -> Scsiseq {
        Scsiseq {
            temodeo: (v >> 7) % 2 == 1,
            enselo: (v >> 6) % 2 == 1,
            enseli: (v >> 5) % 2 == 1,
            enrseli: (v >> 4) % 2 == 1,
            enautoatno: (v >> 3) % 2 == 1,
            enautoatni: (v >> 2) % 2 == 1,
            enautoatnp: (v >> 1) % 2 == 1,
            scsirsto: (v >> 0) % 2 == 1,
        }
    }

    fn to_byte(self) -> u8 {
        byte_of(
            self.temodeo,
            self.enselo,
            self.enseli,
            self.enrseli,
            self.enautoatno,
            self.enautoatni,
            self.enautoatnp,
            self.scsirsto,
        )
    }

    ghost kept = { scsiseq_back };
}

// 341h: CLRSTCNT and CLRCH act once and are not stored
impl Stored for Sxfrctl0 {
    ghost written = { sxfrctl0_of };

    ghost read = { sxfrctl0_byte };

    fn from_byte(v: u8) -> Sxfrctl0 {
        Sxfrctl0 {
            scsien: (v >> 7) % 2 == 1,
            dmaen: (v >> 6) % 2 == 1,
            chen: (v >> 5) % 2 == 1,
            spioen: (v >> 3) % 2 == 1,
        }
    }

    fn to_byte(self) -> u8 {
        byte_of(
            self.scsien,
            self.dmaen,
            self.chen,
            false,
            self.spioen,
            false,
            false,
            false,
        )
    }

    ghost kept = { sxfrctl0_back };
}

// 342h
impl Stored for Sxfrctl1 {
    ghost written = { sxfrctl1_of };

    ghost read = { sxfrctl1_byte };

    fn from_byte(v: u8) -> Sxfrctl1 {
        Sxfrctl1 {
            bitbucket: (v >> 7) % 2 == 1,
            swrapen: (v >> 6) % 2 == 1,
            enspchk: (v >> 5) % 2 == 1,
            stimesel1: (v >> 4) % 2 == 1,
            stimesel0: (v >> 3) % 2 == 1,
            enstimer: (v >> 2) % 2 == 1,
            bytealign: (v >> 1) % 2 == 1,
        }
    }

    fn to_byte(self) -> u8 {
        byte_of(
            self.bitbucket,
            self.swrapen,
            self.enspchk,
            self.stimesel1,
            self.stimesel0,
            self.enstimer,
            self.bytealign,
            false,
        )
    }

    ghost kept = { sxfrctl1_back };
}

// 343h, written over the ATN that stands there
pub fn scsisig_of(atn: bool, v: u8) -> Scsisig
    ensures { result ≡ scsisig_of atn v }
{
    Scsisig {
        cdexp: (v >> 7) % 2 == 1,
        ioexp: (v >> 6) % 2 == 1,
        msgexp: (v >> 5) % 2 == 1,
        atno: ((v >> 4) % 2 == 1) | atn,
        selo: (v >> 3) % 2 == 1,
        bsyo: (v >> 2) % 2 == 1,
        reqo: (v >> 1) % 2 == 1,
        acko: (v >> 0) % 2 == 1,
    }
}

// 344h
pub fn scsirate_of(v: u8) -> Scsirate
    ensures { result ≡ scsirate_of v }
{
    Scsirate {
        sxfr: (v >> 4) % 8,
        sofs: (v >> 0) % 16,
    }
}

// 345h
pub fn scsiid_of(v: u8) -> Scsiid
    ensures { result ≡ scsiid_of v }
{
    Scsiid {
        oid: (v >> 4) % 8,
        tid: (v >> 0) % 8,
    }
}

// 350h
impl Stored for Simode0 {
    ghost written = { simode0_of };

    ghost read = { simode0_byte };

    fn from_byte(v: u8) -> Simode0 {
        Simode0 {
            enseldo: (v >> 6) % 2 == 1,
            enseldi: (v >> 5) % 2 == 1,
            enselingo: (v >> 4) % 2 == 1,
            enswrap: (v >> 3) % 2 == 1,
            ensdone: (v >> 2) % 2 == 1,
            enspiordy: (v >> 1) % 2 == 1,
            endmadone: (v >> 0) % 2 == 1,
        }
    }

    fn to_byte(self) -> u8 {
        byte_of(
            false,
            self.enseldo,
            self.enseldi,
            self.enselingo,
            self.enswrap,
            self.ensdone,
            self.enspiordy,
            self.endmadone,
        )
    }

    ghost kept = { simode0_back };
}

// 351h
impl Stored for Simode1 {
    ghost written = { simode1_of };

    ghost read = { simode1_byte };

    fn from_byte(v: u8) -> Simode1 {
        Simode1 {
            enseltimo: (v >> 7) % 2 == 1,
            enatntarg: (v >> 6) % 2 == 1,
            enscsirst: (v >> 5) % 2 == 1,
            enphasemis: (v >> 4) % 2 == 1,
            enbusfree: (v >> 3) % 2 == 1,
            enscsiperr: (v >> 2) % 2 == 1,
            enphasechg: (v >> 1) % 2 == 1,
            enreqinit: (v >> 0) % 2 == 1,
        }
    }

    fn to_byte(self) -> u8 {
        byte_of(
            self.enseltimo,
            self.enatntarg,
            self.enscsirst,
            self.enphasemis,
            self.enbusfree,
            self.enscsiperr,
            self.enphasechg,
            self.enreqinit,
        )
    }

    ghost kept = { simode1_back };
}

// 352h: RSTFIFO acts once and is not stored
impl Stored for Dmacntrl0 {
    ghost written = { dmacntrl0_of };

    ghost read = { dmacntrl0_byte };

    fn from_byte(v: u8) -> Dmacntrl0 {
        Dmacntrl0 {
            endma: (v >> 7) % 2 == 1,
            eightbit: (v >> 6) % 2 == 1,
            dma: (v >> 5) % 2 == 1,
            dwordpio: (v >> 4) % 2 == 1,
            write: (v >> 3) % 2 == 1,
            inten: (v >> 2) % 2 == 1,
            swint: (v >> 0) % 2 == 1,
        }
    }

    fn to_byte(self) -> u8 {
        byte_of(
            self.endma,
            self.eightbit,
            self.dma,
            self.dwordpio,
            self.write,
            self.inten,
            false,
            self.swint,
        )
    }

    ghost kept = { dmacntrl0_back };
}

// 353h: the pointer stands with the stack
pub fn dmacntrl1_of(v: u8) -> Dmacntrl1
    ensures { result ≡ dmacntrl1_of v }
{
    Dmacntrl1 {
        pwrdwn: (v >> 7) % 2 == 1,
        enstk32: (v >> 6) % 2 == 1,
    }
}

// 353h with the pointer's five bits; bit 5 reads 0
pub fn dmacntrl1_byte(r: Dmacntrl1, pointer: u8) -> u8
    ensures { result ≡ dmacntrl1_byte r (pointer % 32) }
{
    ((r.pwrdwn as u8) << 7) | (((r.enstk32 as u8) << 6) | (pointer % 32))
}
