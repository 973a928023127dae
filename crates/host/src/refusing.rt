// The answers to an image that is refused: "a 16-byte answer buffer gets code 1 and otherwise zeros; another buffer is not touched".
ghost use Rattle.std.specs.Prelude.{◌≡◌};
ghost use Rattle.host.specs.ImageCalls.{refused_answer, refused_buffer, IsRefusedRun};

use rules::records::{ANSWER_SIZE, RECORD_SIZE};
use step::answers::store_at;

// Code 1 in the upper three bits of the first byte.
fn refused_answer() -> [u8; ANSWER_SIZE]
    ensures { result ≡ refused_answer }
{
    let mut b = [0u8; ANSWER_SIZE];
    b[0] = 32;
    b
}

// Code 1, a number as C takes it.
pub fn refuse(answer: &mut [u8]) -> u8
    ensures value { result ≡ 1 }
    ensures answer_after { answer.new ≡ refused_buffer answer.old }
{
    if answer.len() == ANSWER_SIZE {
        answer.copy_from_slice(&refused_answer());
    }
    1
}

// As many as records would have been stepped.
pub fn refuse_all(records: &[u8], answers: &mut [u8]) -> usize
    ensures { IsRefusedRun records.now answers.old answers.new result }
{
    let n = records
        .len()
        .div_ceil(RECORD_SIZE)
        .min(answers.len() / ANSWER_SIZE);
    // By place: of a loop over `chunks_exact_mut` nothing is known behind it but the length.
    for i in 0..n {
        store_at(refused_answer(), answers, ANSWER_SIZE * i);
    }
    n
}
