// The step: a chip by value, a record and a lent answer buffer.
#![tactic(auto)]

ghost use Rattle.std.specs.Prelude.{◌≡◌, length};
ghost use Rattle.rules.specs.Ranges.{Tidy};
ghost use Rattle.step.specs.Outcomes.{IsStep};

use image::layout::SIZE;

pub mod answers;
pub mod reset;
pub mod run;

use event::stepping::stepped;
use rules::chip::Chip;
use rules::codes::Code;
use rules::records::ANSWER_SIZE;

// What a call returns.
#[derive(Clone, Copy)]
pub struct Returned {
    pub chip: Chip,
    pub code: Code,
}

// What a run of records returns: the chip, and how many were stepped.
#[derive(Clone, Copy)]
pub struct Ran {
    pub chip: Chip,
    pub count: usize,
}

// One record over the image of a tidy chip; its answer fills the buffer. Laid out and taken up here, since the record is one alone.
fn stepped_over(c: Chip, bytes: &[u8], answer: &mut [u8]) -> Returned
    requires tidy { Tidy c }
    requires answer_len { length answer.old ≡ 16 }
    ensures { IsStep c bytes.now answer.old answer.new result }
{
    let mut m = [0u8; SIZE];
    chips::store(c, &mut m);
    let mut spare = [0u8; SIZE];
    let reply = stepped(&mut m, bytes, &mut spare);
    answer.copy_from_slice(&reply.answer);
    Returned {
        chip: chips::load(&m),
        code: reply.code,
    }
}

// One record: any chip value, any record, any buffer. A buffer not of 16 bytes is left as it was, with code 1.
pub fn step(c: Chip, bytes: &[u8], answer: &mut [u8]) -> Returned
    ensures { IsStep c bytes.now answer.old answer.new result }
{
    let tidy = reset::tidied(c);
    if answer.len() == ANSWER_SIZE {
        return stepped_over(tidy, bytes, answer);
    }
    Returned {
        chip: tidy,
        code: Code::Malformed,
    }
}
