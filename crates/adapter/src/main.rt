// Event records on standard input as raw bytes, and a line of hex digits for each answer on standard output.
#![tactic(auto)]

ghost use Rattle.std.specs.Prelude.{◌≡◌, ◌++◌, ◌*◌, ◌≤◌, drop, length, get_or};
ghost use Rattle.adapter.specs.Texts.{IsPrinted, IsReceived, IsAfterRead, answered, answers_size, input_size, left_over, nothing, stepped, tail_from, text_size};

use rules::chip::Chip;
use rules::records::{ANSWER_SIZE, RECORD_SIZE};
use std::env::{Env, FillError};
use std::io::{ErrorKind, IsTerminal, Read};
use std::process::ExitCode;

// One read of 4,096 bytes behind a piece of a record: 1,025 records, their answers and their lines.
const INPUT_SIZE: usize = 4100;

const ANSWERS_SIZE: usize = 16400;

const TEXT_SIZE: usize = 33825;

// The chip after some records, and the number of bytes of their lines.
#[derive(Clone, Copy)]
pub struct Printed {
    pub chip: Chip,
    pub size: usize,
}

// What one read leaves: how many bytes are held, and whether the input is at its end; no Option, since bytes are held at the end too.
#[derive(Clone, Copy)]
pub struct Received {
    pub held: usize,
    pub is_end: bool,
}

// A piece of a record, which waits for the next read: its bytes, zeros behind them, and how many they are, in fixed memory.
#[derive(Clone, Copy)]
pub struct Piece {
    pub bytes: [u8; RECORD_SIZE],
    pub count: usize,
}

// What came from outside, the read and whether the lines were written, and what follows: the chip, the bytes that wait, whether to go on.
// Whether they were written is no Result: all else is said in both cases.
#[derive(Clone, Copy)]
pub struct AfterRead {
    pub received: Received,
    pub is_written: bool,
    pub chip: Chip,
    pub left: Piece,
    pub more: bool,
}

// The answers to the records at the front of answers, and their lines at the front of text.
fn print(c: Chip, records: &[u8], answers: &mut [u8], text: &mut [u8]) -> Printed
    requires { length answers.old ≡ answers_size }
    ensures printed { IsPrinted c records.now text.old text.new result }
    ensures answers_after { answers.new ≡ answered c records.now ++ drop (16 * stepped records.now) answers.old }
{
    let ran = step::run::run(c, records, answers);
    Printed {
        chip: ran.chip,
        size: hexlines::print(&answers[..ANSWER_SIZE * ran.count], text),
    }
}

// A failed read: its message, and nothing held, since the bytes kept are no record before the end of the input.
fn read_failed(rt: &HostRuntime) -> Received
    ensures { result ≡ nothing }
{
    let _ = eprintln!(rt; "adapter: the input could not be read; the answers are not complete");
    Received {
        held: 0,
        is_end: true,
    }
}

// One read behind the bytes kept.
fn receive(rt: &HostRuntime, input: &mut [u8], kept: usize) -> Received
    requires { kept ≤ length input.old }
    ensures { IsReceived kept input.old input.new result }
{
    match rt.stdin().read(&mut input[kept..]) {
        Ok(more) => Received {
            held: kept + more,
            is_end: more == 0,
        },
        Err(_) => read_failed(rt),
    }
}

// The bytes that are no whole record; at the end of the input none is left, since the last piece is a record.
fn left_over(held: usize, is_end: bool) -> usize
    ensures { result ≡ left_over held is_end }
{
    if is_end { 0 } else { held % RECORD_SIZE }
}

// The byte at a place, 0 past the end.
fn byte_at(bytes: &[u8], at: usize) -> u8
    ensures { result ≡ get_or bytes.now at 0 }
{
    bytes.get(at).copied().unwrap_or(0)
}

// The bytes from a place on, as many as can be left over.
fn tail(bytes: &[u8], from: usize) -> [u8; RECORD_SIZE]
    requires { from ≤ length bytes.now }
    ensures { result ≡ tail_from bytes.now from }
{
    [
        byte_at(bytes, from),
        byte_at(bytes, from + 1),
        byte_at(bytes, from + 2),
        0,
    ]
}

// Writes the lines. Nobody reads a closed pipe any more, so a message comes only where the output is at fault.
fn send(rt: &HostRuntime, lines: &[u8]) -> bool {
    match rt.stdout().write_all(lines) {
        Ok(()) => true,
        Err(e) => {
            if e.kind() != ErrorKind::BrokenPipe {
                let _ = eprintln!(rt;
                    "adapter: the output could not be written; the answers are not complete"
                );
            }
            false
        }
    }
}

// One read, so that answers come as soon as their records do. The arrays are lent, so that they are made once; nothing is read of what an
// earlier turn left in them.
fn one_read(
    rt: &HostRuntime,
    c: Chip,
    left: Piece,
    input: &mut [u8],
    answers: &mut [u8],
    text: &mut [u8],
) -> AfterRead
    requires kept_bound { left.count ≤ 3 }
    requires input_len { length input.old ≡ input_size }
    requires answers_len { length answers.old ≡ answers_size }
    requires text_len { length text.old ≡ text_size }
    ensures { IsAfterRead c left.bytes left.count input.old input.new answers.old answers.new text.old text.new result }
{
    input[..3].copy_from_slice(&left.bytes[..3]);
    let received = receive(rt, input, left.count);
    let Received { held, is_end } = received;
    let count = left_over(held, is_end);
    let end = held - count;
    let p = print(c, &input[..end], answers, text);
    let is_written = send(rt, &text[..p.size]);
    let bytes = tail(&input[..held], end);
    AfterRead {
        received,
        is_written,
        chip: p.chip,
        left: Piece { bytes, count },
        more: is_written & !is_end,
    }
}

// The records of the standard input from power reset on, read by read; whether all lines of them were written.
fn answer_all(rt: &HostRuntime) -> bool {
    let mut chip = step::reset::power_reset();
    let mut left = Piece {
        bytes: [0; RECORD_SIZE],
        count: 0,
    };
    let mut is_written = true;
    let mut input = [0u8; INPUT_SIZE];
    let mut answers = [0u8; ANSWERS_SIZE];
    let mut text = [0u8; TEXT_SIZE];
    // Counted, since nothing says that the input ends.
    for _ in 0..u64::MAX {
        let t = one_read(rt, chip, left, &mut input, &mut answers, &mut text);
        chip = t.chip;
        left = t.left;
        is_written = t.is_written;
        if !t.more {
            break;
        }
    }
    is_written
}

// One line for whoever started the program with an argument, or with a terminal as its input.
fn say_what_is_read(rt: &HostRuntime) {
    let _ = eprintln!(rt;
        "adapter: reads event records, four raw bytes each, on standard input and takes no arguments: adapter < records"
    );
}

// Whether anything stands behind the program's name; what it is, is not asked.
fn has_argument(rt: &HostRuntime) -> bool {
    let mut first = [0u8; 1];
    !matches!(rt.arg(1, &mut first), Err(FillError::NotPresent))
}

// A closed pipe gets no message, so the status says that lines are missing.
fn main(rt: HostRuntime) -> ExitCode {
    if has_argument(&rt) {
        say_what_is_read(&rt);
        return ExitCode::SUCCESS;
    }
    if rt.stdin().is_terminal() {
        say_what_is_read(&rt);
    }
    if answer_all(&rt) {
        ExitCode::SUCCESS
    } else {
        ExitCode::FAILURE
    }
}
