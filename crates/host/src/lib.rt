// The functions for a host program, exported by `host_c`: the chip is handed over as the bytes of its image.
#![tactic(auto)]

ghost use Rattle.host.specs.ImageCalls.{IsImageCall, IsImageRun};

use crate::over::step_over;
use crate::refusing::{refuse, refuse_all};
use image::layout::SIZE;
use saved::slices::taken;
use step::run::answered;

mod over;
mod refusing;

// One record: its code; the new image in place of the old. The frame of a call stands in each: a closure for what it does would hold the
// lent buffers, and nothing says what an `FnOnce` leaves in what it holds.
#[tactic(auto, using(crate::proofs::OverImages::call_refused_lem))]
pub fn rabenteig_step(image: &mut [u8], bytes: &[u8], answer: &mut [u8]) -> u8
    ensures { IsImageCall image.old bytes.now answer.old image.new answer.new result }
{
    let mut m = [0u8; SIZE];
    let Ok(()) = taken(image, &mut m) else {
        return refuse(answer);
    };
    let code = step_over(&mut m, bytes, answer);
    image.copy_from_slice(&m);
    code
}

// The records one after another, the image tested once; their number.
pub fn rabenteig_run(image: &mut [u8], records: &[u8], answers: &mut [u8]) -> usize
    ensures { IsImageRun image.old records.now answers.old image.new answers.new result }
{
    let mut m = [0u8; SIZE];
    let Ok(()) = taken(image, &mut m) else {
        return refuse_all(records, answers);
    };
    let n = answered(&mut m, records, answers);
    image.copy_from_slice(&m);
    n
}
