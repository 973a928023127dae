// The read call of a chip by value, which is laid out once and taken up again at the end.
// The write call has the same three steps: a function that takes the middle one as a closure needs more clauses than it saves lines.
ghost use Rattle.strings.specs.Fetching.{IsReadCall};

use crate::Fetched;
use crate::reading::fetched_over;
use image::layout::SIZE;
use rules::chip::Chip;
use rules::codes::Code;
use step::reset::tidied;
use words::is_readable;

// Words read from a chip by value, to a lent buffer: any chip value, any number of words, any buffer.
pub fn read_words(c: Chip, words: usize, out: &mut [u8]) -> Fetched
    ensures { IsReadCall c words out.old out.new result }
{
    let chip = tidied(c);
    if !is_readable(out.len(), words) {
        return Fetched {
            chip,
            done: 0,
            code: Code::Malformed,
        };
    }
    let mut m = [0u8; SIZE];
    chips::store(chip, &mut m);
    let r = fetched_over(&mut m, words, out);
    Fetched {
        chip: chips::load(&m),
        done: r.done,
        code: r.code,
    }
}
