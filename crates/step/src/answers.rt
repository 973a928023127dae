// Sixteen bytes into a lent buffer.
ghost use Rattle.std.specs.Prelude.{◌≡◌, ◌+◌, ◌≤◌, ◌++◌, length, take, drop};

use rules::records::ANSWER_SIZE;

// Sixteen bytes at a place of a lent buffer.
pub fn store_at(b: [u8; ANSWER_SIZE], out: &mut [u8], at: usize)
    requires { at + 16 ≤ length out.old }
    ensures { out.new ≡ (take at out.old ++ b) ++ drop (at + 16) out.old }
{
    out[at..at + ANSWER_SIZE].copy_from_slice(&b);
}
