// The chip: its components by value.
ghost use Rattle.std.specs.Prelude.{◌≡◌};
ghost use Rattle.rules.specs.Seen.{phase_number};

use crate::records::Lines;
use crate::registers::Registers;

// Bytes with their count, in fixed memory: the oldest stands at 0, and zeros past the count.
#[derive(Clone, Copy)]
pub struct Fifo<const N: usize> {
    pub bytes: [u8; N],
    pub count: usize,
}

pub type HostFifo = Fifo<128>;

pub type ScsiFifo = Fifo<8>;

// The data path; ack is the automatic ACK, last the byte last sent.
#[derive(Clone, Copy)]
pub struct DataPath {
    pub host: HostFifo,
    pub scsi: ScsiFifo,
    pub counter: u32,
    pub offset: u8,
    pub ack: bool,
    pub last: u8,
}

// The status bits that are kept; PHASEMIS is live and not among them.
#[derive(Clone, Copy, Default)]
pub struct Status {
    pub spiordy: bool,
    pub scsirsti: bool,
    pub busfree: bool,
    pub scsiperr: bool,
    pub phasechg: bool,
    pub reqinit: bool,
    pub syncerr: bool,
    pub fwerr: bool,
}

// The interrupt latches.
#[derive(Clone, Copy, Default)]
pub struct Latches {
    pub spiordy: bool,
    pub scsirsti: bool,
    pub busfree: bool,
    pub scsiperr: bool,
    pub phasechg: bool,
    pub reqinit: bool,
}

// The stack's bytes and the pointer of 353h.
#[derive(Clone, Copy)]
pub struct Stack {
    pub bytes: [u8; 32],
    pub pointer: u8,
}

// R-1: where the sequencer stands; the number of each is `phase_number`'s in specs/Seen.antt.
#[derive(Clone, Copy, PartialEq, Eq, Default)]
pub enum Phase {
    #[default]
    Idle,
    Waiting,
    Arbitrating,
    Clearing,
    Selecting,
    Holding,
    Answering,
    Answered,
}

impl From<Phase> for u8 {
    ghost from_gives = { λ phase number. number ≡ phase_number phase };

    fn from(phase: Phase) -> u8 {
        phase as u8
    }
}

// SELDO, SELDI and SELINGO of 34Bh and SELTO of 34Ch: the statuses, or their latches.
#[derive(Clone, Copy, Default)]
pub struct Selection {
    pub seldo: bool,
    pub seldi: bool,
    pub selingo: bool,
    pub selto: bool,
}

// The sequencer of R-1; ticks: those spent in the phase; noted: 34Bh bit 5 was written while SELDI was 1; selid: the byte that
// others drove when the chip was last reselected.
#[derive(Clone, Copy, Default)]
pub struct Sequencer {
    pub phase: Phase,
    pub ticks: u32,
    pub noted: bool,
    pub selid: u8,
    pub status: Selection,
    pub latches: Selection,
}

// What the sequencer may change: itself, ENSELO (340h bit 6), ATN (343h bit 4) and the quiet ticks.
#[derive(Clone, Copy)]
pub struct Sequenced {
    pub sequencer: Sequencer,
    pub enselo: bool,
    pub atno: bool,
    pub quiet: u8,
}

// keptbad: the parity of the last inbound byte was bad (R-2); quiet: ticks for which BSY and SEL were not seen, up to 8;
// identity: the place in the ID string.
#[derive(Clone, Copy)]
pub struct Chip {
    pub lines: Lines,
    pub registers: Registers,
    pub transfer: DataPath,
    pub status: Status,
    pub latches: Latches,
    pub stack: Stack,
    pub keptbad: bool,
    pub quiet: u8,
    pub identity: u8,
    pub sequencer: Sequencer,
}

// What settling looks at and does not change.
#[derive(Clone, Copy)]
pub struct Conditions {
    pub path: bool,
    pub enabled: bool,
    pub outbound: bool,
    pub synchronous: bool,
    pub req: bool,
    pub byte: u8,
}
