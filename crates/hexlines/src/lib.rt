// Answers as lines of hex digits.
#![tactic(auto)]

ghost use Rattle.std.specs.Prelude.{◌≡◌, ◌+◌, ◌≤◌, min, length, take, drop};
ghost use Rattle.std.proofs.Math.Seq.{paste};
ghost use Rattle.hexlines.specs.Hex.{line_of, Digits, Printed};

use rules::records::ANSWER_SIZE;

// 32 hex digits and the end of the line.
pub const LINE_SIZE: usize = 33;

// Both digits of a byte at once: 6 more carries out of the four bits of those that are letters.
fn digits(b: u8) -> u16
    ensures { Digits b result }
{
    let w = u16::from(b);
    let values = w / 16 + w % 16 * 256;
    let carried = values + 0x0606;
    let letters = carried / 16 % 2 + carried / 4096 * 256;
    values + 0x3030 + 7 * letters
}

// An answer in an array of its own: the compiler then sees that no store of a line changes it.
fn copied(answers: &[u8], from: usize) -> [u8; ANSWER_SIZE]
    requires { from + 16 ≤ length answers.now }
    ensures { result ≡ take 16 (drop from answers.now) }
{
    let mut b = [0u8; ANSWER_SIZE];
    b.copy_from_slice(&answers[from..from + ANSWER_SIZE]);
    b
}

// The line of an answer at a place of out.
fn line(b: [u8; ANSWER_SIZE], out: &mut [u8], at: usize)
    requires { at + 33 ≤ length out.old }
    ensures { out.new ≡ paste out.old at (line_of b) 33 }
{
    for (i, byte) in b.iter().enumerate() {
        let [first, second] = digits(*byte).to_le_bytes();
        out[at + 2 * i] = first;
        out[at + 2 * i + 1] = second;
    }
    out[at + 32] = 10;
}

// The lines of the answers, as many as there is room for; the number of bytes written.
pub fn print(answers: &[u8], out: &mut [u8]) -> usize
    ensures { Printed answers.now out.old out.new result }
{
    // By number: after a loop over chunks_exact_mut a proof knows none of their bytes.
    let n = (answers.len() / ANSWER_SIZE).min(out.len() / LINE_SIZE);
    for k in 0..n {
        line(copied(answers, ANSWER_SIZE * k), out, LINE_SIZE * k);
    }
    LINE_SIZE * n
}
