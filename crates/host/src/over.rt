// One record on an image that is accepted.
ghost use Rattle.std.specs.Prelude.{◌≡◌, length};
ghost use Rattle.image.specs.Image.{IsImage};
ghost use Rattle.host.specs.ImageCalls.{IsOneAnswered, IsCalledOver};

use image::layout::Image;
use rules::records::{ANSWER_SIZE, RECORD_SIZE};
use step::run::answered;

// A run of one record. One not of four bytes is malformed, whatever it holds: a single byte stands for it.
fn one_answered(m: &mut Image, bytes: &[u8], answer: &mut [u8])
    requires image { IsImage m.old }
    requires answer_len { length answer.old ≡ 16 }
    ensures { IsOneAnswered m.old bytes.now m.new answer.new }
{
    if bytes.len() == RECORD_SIZE {
        answered(m, bytes, answer);
    } else {
        answered(m, &[0], answer);
    }
}

// The code stands in the answer's upper three bits; with another buffer nothing is done.
pub fn step_over(m: &mut Image, bytes: &[u8], answer: &mut [u8]) -> u8
    requires { IsImage m.old }
    ensures { IsCalledOver m.old bytes.now answer.old m.new answer.new result }
{
    if answer.len() != ANSWER_SIZE {
        return 1;
    }
    one_answered(m, bytes, answer);
    answer[0] >> 5
}
