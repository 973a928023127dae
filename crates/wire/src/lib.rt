// Document 01, "Records": event records to events, answers to their sixteen bytes, by shifts and masks.
#![tactic(auto)]

ghost use Rattle.std.specs.Prelude.{◌≡◌, cond, ◌+◌, ◌*◌, ◌%◌};
ghost use Rattle.rules.specs.Numbers.{one};
ghost use Rattle.rules.specs.Records.{lines_of, payload_of, fields_of, decode};
ghost use Rattle.rules.specs.Codes.{number_of, refused_value};
ghost use Rattle.rules.specs.Answers.{answer_bytes};

use laws::bit_of;
use rules::codes::Code;
use rules::records::{ANSWER_SIZE, Answer, Event, Lines, RECORD_SIZE};

// The 24 bits after kind and offset.
pub fn payload(b1: u8, b2: u8, b3: u8) -> u32
    ensures { result ≡ payload_of b1 b2 b3 }
{
    let high = ((b1 as u32) << 8) | (b2 as u32);
    (high << 8) | (b3 as u32)
}

// The lines of kind 5: data in bits 17 to 10, then a bit for each.
fn lines_of(p: u32) -> Lines
    ensures { result ≡ lines_of p }
{
    let byte = ((p >> 10) & 255) as u8;
    Lines {
        byte,
        parity: bit_of(p, 9),
        rst: bit_of(p, 8),
        cd: bit_of(p, 7),
        io: bit_of(p, 6),
        msg: bit_of(p, 5),
        atn: bit_of(p, 4),
        sel: bit_of(p, 3),
        bsy: bit_of(p, 2),
        req: bit_of(p, 1),
        ack: bit_of(p, 0),
    }
}

// Unused bits are 0: an event where the test passes.
fn well_if(t: bool, e: Event) -> Option<Event>
    ensures { result ≡ cond t (Some e) None }
{
    t.then_some(e)
}

// Kind 1: a register write.
fn write_of(offset: u8, p: u32) -> Option<Event>
    ensures { result ≡ fields_of 1 offset p }
{
    if (p < 256) & (offset < 32) {
        Some(Event::Write {
            offset,
            value: p as u8,
        })
    } else {
        None
    }
}

// Kind 3: a word write at 356h.
fn word_of(offset: u8, p: u32) -> Option<Event>
    ensures { result ≡ fields_of 3 offset p }
{
    if (p < 65536) & (offset < 1) {
        Some(Event::WordWrite(p as u16))
    } else {
        None
    }
}

// Kind 5: lines others drive.
fn drive_of(offset: u8, p: u32) -> Option<Event>
    ensures { result ≡ fields_of 5 offset p }
{
    if (p < 262144) & (offset < 1) {
        Some(Event::Drive(lines_of(p)))
    } else {
        None
    }
}

// An event by its three fields: "Unused bits, and the offset except in kinds 1 and 2, are 0. Kind 7 is bad."
fn fields(kind: u8, offset: u8, p: u32) -> Option<Event>
    ensures { result ≡ fields_of kind offset p }
{
    match kind {
        0 => well_if((p < 1) & (offset < 1), Event::PowerReset),
        1 => write_of(offset, p),
        2 => well_if((p < 1) & (offset < 32), Event::Read { offset }),
        3 => word_of(offset, p),
        4 => well_if((p < 1) & (offset < 1), Event::WordRead),
        5 => drive_of(offset, p),
        6 => well_if((p < 16777216) & (offset < 1), Event::Ticks(p)),
        _ => None,
    }
}

// The event of a record: its kind in the three high bits of the first byte, its offset in the five low ones.
pub fn decode(bytes: &[u8]) -> Option<Event>
    ensures { result ≡ decode bytes.now }
{
    if bytes.len() == RECORD_SIZE {
        let first = bytes[0];
        let p = payload(bytes[1], bytes[2], bytes[3]);
        fields(first >> 5, first & 31, p)
    } else {
        None
    }
}

// The value of a refusal: all ones of the width on a read, 0 on all else.
#[tactic(auto, unfolding(rules::specs::Codes::refused_value))]
pub fn refused_value(e: Event) -> u16
    ensures { result ≡ refused_value e }
{
    match e {
        Event::Read { .. } => 0xFF,
        Event::WordRead => 0xFFFF,
        Event::PowerReset
        | Event::Write { .. }
        | Event::WordWrite(_)
        | Event::Drive(_)
        | Event::Ticks(_) => 0,
    }
}

// Code 3 bits, IRQ 1, ACKs issued 4.
fn code_byte(code: Code, irq: bool, acks: u8) -> u8
    ensures { result ≡ (number_of code * 2 + one irq) * 16 + acks % 16 }
{
    let high = (u8::from(code) << 1) | (irq as u8);
    (high << 4) | (acks & 15)
}

// Moves 5 bits, then whether data, RST and parity are driven.
fn moves_byte(moves: u8, driving: bool, rst: bool, parity: bool) -> u8
    ensures { result ≡ ((moves % 32 * 2 + one driving) * 2 + one rst) * 2 + one parity }
{
    let six = ((moves & 31) << 1) | (driving as u8);
    let seven = (six << 1) | (rst as u8);
    (seven << 1) | (parity as u8)
}

// Offset 4 bits, SCSI FIFO count 4.
fn offset_byte(offset: u8, scsi: u8) -> u8
    ensures { result ≡ offset % 16 * 16 + scsi % 16 }
{
    ((offset & 15) << 4) | (scsi & 15)
}

// The sixteen bytes of an answer.
pub fn answer_bytes(a: Answer) -> [u8; ANSWER_SIZE]
    ensures { result ≡ answer_bytes a }
{
    let first = code_byte(a.code, a.irq, a.acks);
    let second = moves_byte(a.moves, a.driving, a.rst, a.parity);
    let high = (a.value >> 8) as u8;
    let low = (a.value & 255) as u8;
    let seventh = offset_byte(a.offset, a.scsi);
    [
        first, second, high, low, a.control, a.driven, seventh, a.host, a.sent[0], a.sent[1],
        a.sent[2], a.sent[3], a.sent[4], a.sent[5], a.sent[6], a.sent[7],
    ]
}
