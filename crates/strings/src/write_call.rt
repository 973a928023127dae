// The write call of a chip by value, which is laid out once and taken up again at the end, as in the read call and for its reason.
ghost use Rattle.strings.specs.Writing.{IsWriteCall};

use crate::Written;
use crate::writing::written_over;
use image::layout::SIZE;
use rules::chip::Chip;
use rules::codes::Code;
use step::reset::tidied;
use words::is_writable;

// Words written to a chip by value, the sent bytes to a lent buffer: any chip value, any number of words, any buffers.
pub fn write_words(c: Chip, bytes: &[u8], words: usize, out: &mut [u8]) -> Written
    ensures { IsWriteCall c bytes.now words out.old out.new result }
{
    let chip = tidied(c);
    if !is_writable(bytes.len(), words, out.len()) {
        return Written {
            chip,
            done: 0,
            sent: 0,
            code: Code::Malformed,
        };
    }
    let mut m = [0u8; SIZE];
    chips::store(chip, &mut m);
    let r = written_over(&mut m, bytes, words, out);
    Written {
        chip: chips::load(&m),
        done: r.done,
        sent: r.count,
        code: r.code,
    }
}
