// A run of records in one lent slice, their answers in another, over the chip's bytes in one array.
ghost use Rattle.std.specs.Prelude.{◌≡◌, ◌+◌, ◌*◌, ◌<◌, ◌≤◌, min, length};
ghost use Rattle.image.specs.Image.{IsImage};
ghost use Rattle.step.specs.Runs.{IsRun, IsRunOver, IsRecordAnswered};

use crate::Ran;
use crate::answers::store_at;
use crate::reset::tidied;
use event::stepping::stepped;
use image::layout::{Image, SIZE};
use rules::chip::Chip;
use rules::records::{ANSWER_SIZE, RECORD_SIZE};

// Record i, and its answer in its place; the last record ends where the slice does.
fn record_answered(m: &mut Image, spare: &mut Image, records: &[u8], answers: &mut [u8], i: usize)
    requires image { IsImage m.old }
    requires i_in_bounds { 4 * i < length records.now }
    requires i_in_bounds_2 { 16 * i + 16 ≤ length answers.old }
    ensures { IsRecordAnswered m.old records.now answers.old i m.new answers.new }
{
    let from = RECORD_SIZE * i;
    let end = from + RECORD_SIZE.min(records.len() - from);
    let reply = stepped(m, &records[from..end], spare);
    store_at(reply.answer, answers, ANSWER_SIZE * i);
}

// As many records as there is room for whole answers, one after another on an image; their number.
pub fn answered(m: &mut Image, records: &[u8], answers: &mut [u8]) -> usize
    requires { IsImage m.old }
    ensures { IsRunOver m.old records.now answers.old m.new answers.new result }
{
    let n = ((records.len() + 3) / RECORD_SIZE).min(answers.len() / ANSWER_SIZE);
    let mut spare = [0u8; SIZE];
    // by index: of a slice that `chunks_exact_mut` lends, a proof knows the length afterwards, and not its bytes
    for i in 0..n {
        record_answered(m, &mut spare, records, answers, i);
    }
    n
}

// The same of a chip by value, which is laid out once and taken up again at the end: three lines, which a closure would not shorten.
pub fn run(c: Chip, records: &[u8], answers: &mut [u8]) -> Ran
    ensures { IsRun c records.now answers.old answers.new result }
{
    let mut m = [0u8; SIZE];
    chips::store(tidied(c), &mut m);
    let n = answered(&mut m, records, answers);
    Ran {
        chip: chips::load(&m),
        count: n,
    }
}
