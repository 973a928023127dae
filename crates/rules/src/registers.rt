// The stored registers: a bool for each control bit under its name in document 001, reserved bits left out.

// 340h
#[derive(Clone, Copy, Default)]
pub struct Scsiseq {
    pub temodeo: bool,
    pub enselo: bool,
    pub enseli: bool,
    pub enrseli: bool,
    pub enautoatno: bool,
    pub enautoatni: bool,
    pub enautoatnp: bool,
    pub scsirsto: bool,
}

// 341h; CLRSTCNT and CLRCH act once and are not stored
#[derive(Clone, Copy, Default)]
pub struct Sxfrctl0 {
    pub scsien: bool,
    pub dmaen: bool,
    pub chen: bool,
    pub spioen: bool,
}

// 342h
#[derive(Clone, Copy, Default)]
pub struct Sxfrctl1 {
    pub bitbucket: bool,
    pub swrapen: bool,
    pub enspchk: bool,
    pub stimesel1: bool,
    pub stimesel0: bool,
    pub enstimer: bool,
    pub bytealign: bool,
}

// 343h as written
#[derive(Clone, Copy, Default)]
pub struct Scsisig {
    pub cdexp: bool,
    pub ioexp: bool,
    pub msgexp: bool,
    pub atno: bool,
    pub selo: bool,
    pub bsyo: bool,
    pub reqo: bool,
    pub acko: bool,
}

// 344h: SXFR is 3 bits, SOFS 4
#[derive(Clone, Copy, Default)]
pub struct Scsirate {
    pub sxfr: u8,
    pub sofs: u8,
}

// 345h as written: 3 bits each
#[derive(Clone, Copy, Default)]
pub struct Scsiid {
    pub oid: u8,
    pub tid: u8,
}

// 350h
#[derive(Clone, Copy, Default)]
pub struct Simode0 {
    pub enseldo: bool,
    pub enseldi: bool,
    pub enselingo: bool,
    pub enswrap: bool,
    pub ensdone: bool,
    pub enspiordy: bool,
    pub endmadone: bool,
}

// 351h
#[derive(Clone, Copy, Default)]
pub struct Simode1 {
    pub enseltimo: bool,
    pub enatntarg: bool,
    pub enscsirst: bool,
    pub enphasemis: bool,
    pub enbusfree: bool,
    pub enscsiperr: bool,
    pub enphasechg: bool,
    pub enreqinit: bool,
}

// 352h; RSTFIFO acts once and is not stored
#[derive(Clone, Copy, Default)]
pub struct Dmacntrl0 {
    pub endma: bool,
    pub eightbit: bool,
    pub dma: bool,
    pub dwordpio: bool,
    pub write: bool,
    pub inten: bool,
    pub swint: bool,
}

// 353h; its pointer stands with the stack
#[derive(Clone, Copy, Default)]
pub struct Dmacntrl1 {
    pub pwrdwn: bool,
    pub enstk32: bool,
}

// All that is stored by register writes; scsidat is the data latch of 346h
#[derive(Clone, Copy, Default)]
pub struct Registers {
    pub scsiseq: Scsiseq,
    pub sxfrctl0: Sxfrctl0,
    pub sxfrctl1: Sxfrctl1,
    pub scsisig: Scsisig,
    pub scsirate: Scsirate,
    pub scsiid: Scsiid,
    pub scsidat: u8,
    pub simode0: Simode0,
    pub simode1: Simode1,
    pub dmacntrl0: Dmacntrl0,
    pub dmacntrl1: Dmacntrl1,
    pub brstcntrl: u8,
}
