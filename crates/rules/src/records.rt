// Document 01, "Records": what an event says and what an answer shows.
use crate::codes::Code;

// The lines that others drive: the payload of kind 5, in its order. `byte` is the eight data lines.
#[derive(Clone, Copy, Default)]
pub struct Lines {
    pub byte: u8,
    pub parity: bool,
    pub rst: bool,
    pub cd: bool,
    pub io: bool,
    pub msg: bool,
    pub atn: bool,
    pub sel: bool,
    pub bsy: bool,
    pub req: bool,
    pub ack: bool,
}

// Kinds 0 to 6.
#[derive(Clone, Copy)]
pub enum Event {
    PowerReset,
    Write { offset: u8, value: u8 },
    Read { offset: u8 },
    WordWrite(u16),
    WordRead,
    Drive(Lines),
    Ticks(u32),
}

// The fields of an answer, in its order.
#[derive(Clone, Copy)]
pub struct Answer {
    pub code: Code,
    pub irq: bool,
    pub acks: u8,
    pub moves: u8,
    pub driving: bool,
    pub rst: bool,
    pub parity: bool,
    pub value: u16,
    pub control: u8,
    pub driven: u8,
    pub offset: u8,
    pub scsi: u8,
    pub host: u8,
    pub sent: [u8; 8],
}

// "An event is 4 bytes", "An answer is 16 bytes".
pub const RECORD_SIZE: usize = 4;

pub const ANSWER_SIZE: usize = 16;
