// Stored records and answers, run again on the proved step and compared.
// A line "= name" starts a stream from power reset; a record in hex, a space and its answer in hex is an event;
// what follows a second space, a line that starts with # and an empty line are comments.
#![tactic(auto)]

ghost use Rattle.std.specs.Prelude.{◌≡◌, ◌≤◌, length};
ghost use Rattle.hexlines.specs.Hex.{line_of};
ghost use Rattle.stored.specs.Tallies.{nothing_yet, next_line, after_stream, with_event, after_event, after_event_line, after_line, tally_of};

use hexlines::LINE_SIZE;
use rules::chip::Chip;
use rules::records::ANSWER_SIZE;
use std::io;
use std::io::Read;
use step::reset::power_reset;

mod words;

use words::{cut, record_of};

const INPUT_SIZE: usize = 1048576;

// Where a comparison stands.
#[derive(Clone, Copy)]
struct Tally {
    chip: Chip,
    line: u64,
    streams: u64,
    events: u64,
    agreed: u64,
}

fn say_difference(
    rt: &HostRuntime,
    line: u64,
    named: &[u8],
    stored: &[u8],
    came: &[u8],
) -> io::Result<()> {
    print!(rt; "line {line}: ")?;
    rt.write_all(named)?;
    rt.write_all(b" stored ")?;
    rt.write_all(stored)?;
    rt.write_all(b" came ")?;
    rt.write_all(came)?;
    rt.write_all(b"\n")
}

// In two pieces, as where two answers differ.
fn say_unreadable(rt: &HostRuntime, line: u64) -> io::Result<()> {
    print!(rt; "line {line}: ")?;
    rt.write_all(b"cannot be read\n")
}

// A stream starts from power reset.
#[tactic(auto, unfolding(crate::specs::Tallies::after_stream))]
fn stream(t: &mut Tally)
    ensures { t.new ≡ after_stream t.old }
{
    t.chip = power_reset();
    t.streams = t.streams.wrapping_add(1);
}

// An event's chip, counted, and once more where it agrees.
#[tactic(auto, unfolding(crate::specs::Tallies::with_event))]
fn with_event(t: Tally, chip: Chip, agrees: bool) -> Tally
    ensures { result ≡ with_event t chip agrees }
{
    Tally {
        chip,
        events: t.events.wrapping_add(1),
        agreed: if agrees {
            t.agreed.wrapping_add(1)
        } else {
            t.agreed
        },
        ..t
    }
}

// An answer's digits and a line end.
fn printed(answer: &[u8; ANSWER_SIZE]) -> [u8; LINE_SIZE]
    ensures { result ≡ line_of answer.now }
{
    let mut text = [0u8; LINE_SIZE];
    hexlines::print(answer, &mut text);
    text
}

// One record on the chip; its answer is compared as it prints.
fn event(rt: &HostRuntime, t: Tally, bytes: &[u8], named: &[u8], stored: &[u8]) -> Tally
    ensures { result ≡ after_event t bytes.now stored.now }
{
    let mut answer = [0u8; ANSWER_SIZE];
    let returned = step::step(t.chip, bytes, &mut answer);
    let came = printed(&answer);
    let is_same = stored == &came[..32];
    if !is_same {
        let _ = say_difference(rt, t.line, named, stored, &came[..32]);
    }
    with_event(t, returned.chip, is_same)
}

// A record, a space and its answer.
fn event_line(rt: &HostRuntime, t: &mut Tally, text: &[u8])
    ensures { t.new ≡ after_event_line t.old text.now }
{
    let (named, behind) = cut(text, b' ');
    let (stored, _) = cut(behind, b' ');
    let Some(record) = record_of(named) else {
        let _ = say_unreadable(rt, t.line);
        return;
    };
    let bytes = &record.bytes[..record.count];
    *t = event(rt, *t, bytes, named, stored);
}

// The tally is lent, here and where it counts: by value the whole of it was copied for each blank line.
#[tactic(auto, unfolding(crate::specs::Tallies::after_line))]
fn line(rt: &HostRuntime, t: &mut Tally, text: &[u8])
    ensures { t.new ≡ after_line t.old text.now }
{
    match text {
        [] | [b'#', ..] => {}
        [b'=', ..] => stream(t),
        _ => event_line(rt, t, text),
    }
}

fn next_line(t: &mut Tally)
    ensures { t.new ≡ next_line t.old }
{
    t.line = t.line.wrapping_add(1);
}

fn nothing_yet() -> Tally
    ensures { result ≡ nothing_yet }
{
    Tally {
        chip: power_reset(),
        line: 0,
        streams: 0,
        events: 0,
        agreed: 0,
    }
}

// Every line of a text; `split` would give one more behind the last end.
fn compared(rt: &HostRuntime, text: &[u8]) -> Tally
    ensures { result ≡ tally_of text.now }
{
    let mut t = nothing_yet();
    let mut rest = text;
    while !rest.is_empty() {
        let (first, behind) = cut(rest, b'\n');
        next_line(&mut t);
        line(rt, &mut t, first);
        rest = behind;
    }
    t
}

fn say_end(rt: &HostRuntime, t: Tally) -> io::Result<()> {
    println!(rt;
        "{} of {} events in {} streams agree",
        t.agreed, t.events, t.streams
    )
}

// Room for the input, by a function of its own: its clause keeps a MiB from being counted out in the proof of `run`.
fn room() -> [u8; INPUT_SIZE]
    ensures { 1048576 ≡ length result }
{
    [0; INPUT_SIZE]
}

// How many bytes stand at the front once it is full or the input at its end; a read that fails ends it too.
// A loop, since `read_exact` says nothing of a short input and `read_to_end` wants the heap.
fn read_full(rt: &HostRuntime, input: &mut [u8]) -> usize
    ensures { result ≤ length input.new }
{
    let mut n: usize = 0;
    while n < input.len() {
        match rt.stdin().read(&mut input[n..]) {
            Ok(0) | Err(_) => break,
            Ok(more) => n += more,
        }
    }
    n
}

// Standard input, below a MiB, compared; each difference and the count of all on standard output.
pub fn run(rt: &HostRuntime) -> io::Result<()> {
    let mut input = room();
    let n = read_full(rt, &mut input);
    if n == INPUT_SIZE {
        let _ = println!(rt; "the input is too long");
    }
    say_end(rt, compared(rt, &input[..n]))
}
