// The working array: every place by its name. The same names, in the words of the definitions, stand in specs/Layout.antt.

// 340h to 346h and 350h to 353h, 358h as written: document 01, "Registers"
pub const SCSISEQ: usize = 0;

pub const SXFRCTL0: usize = 1;

pub const SXFRCTL1: usize = 2;

pub const SCSISIG: usize = 3;

pub const SCSIRATE: usize = 4;

pub const SCSIID: usize = 5;

pub const SCSIDAT: usize = 6;

pub const SIMODE0: usize = 7;

pub const SIMODE1: usize = 8;

pub const DMACNTRL0: usize = 9;

pub const DMACNTRL1: usize = 10;

pub const BRSTCNTRL: usize = 11;

// the statuses, then the latches, most significant first: SPIORDY, SCSIRSTI, BUSFREE, SCSIPERR, PHASECHG, REQINIT, SYNCERR, FWERR
pub const STATUS: usize = 12;

pub const LATCHES: usize = 13;

// the lines that others drive: data; parity and RST; the rest in the order of 343h
pub const LINES_DATA: usize = 14;

pub const LINES_UPPER: usize = 15;

pub const LINES_CONTROL: usize = 16;

// what is kept as a number
pub const OFFSET: usize = 17;

pub const ACK: usize = 18;

pub const LAST: usize = 19;

pub const QUIET: usize = 20;

pub const IDENTITY: usize = 21;

pub const POINTER: usize = 22;

pub const KEPT_PARITY: usize = 23;

// R-1: SELDO, SELDI, SELTO, noted, SELINGO, and in the lowest three bits the number of the sequencer's phase
pub const SEQUENCER: usize = 24;

// in the lowest four bits the latches of SELDO, SELDI, SELINGO, SELTO
pub const SELECTION_LATCHES: usize = 25;

// the ticks spent in the phase, the highest byte first; what 345h reads
pub const TICKS_HIGH: usize = 26;

pub const TICKS_MIDDLE: usize = 27;

pub const TICKS_LOW: usize = 28;

pub const SELID: usize = 29;

// how many bytes the FIFOs hold
pub const SCSI_COUNT: usize = 30;

pub const HOST_COUNT: usize = 31;

// the counter, the highest byte first
pub const COUNTER_HIGH: usize = 32;

pub const COUNTER_MIDDLE: usize = 33;

pub const COUNTER_LOW: usize = 34;

// the SCSI FIFO, the stack, the host FIFO
pub const SCSI_BYTES: usize = 35;

pub const STACK_BYTES: usize = 43;

pub const HOST_BYTES: usize = 75;

// the whole of it
pub const SIZE: usize = 203;

pub type Image = [u8; SIZE];
