// Words written: the first by the step, which leaves any chip at rest; the others as blocks, each settled once.
ghost use Rattle.std.specs.Prelude.{◌≡◌, cond, ◌++◌, ◌+◌, ◌*◌, ◌-◌, ◌/◌, ◌≤◌, ltb, length, take, drop};
ghost use Rattle.rules.specs.Ranges.{Bytes};
ghost use Rattle.rules.specs.declared.codes.Code.TheVariants.{Done, NoRoom};
ghost use Rattle.image.specs.Image.{IsImage, state_at};
ghost use Rattle.strings.specs.Passed.{IsBlock, IsWritten, FirstWritten};

use crate::Passed;
use crate::blocks::{host_filled, sent_stored, settled_in};
use event::stepping::outcome_of;
use fifos::Sent;
use image::layout::{HOST_COUNT, Image, SIZE};
use rules::codes::Code;

// n bytes of a run as a block.
fn block_written(m: &mut Image, bytes: &[u8], from: usize, n: usize) -> Sent
    requires image { IsImage m.old }
    requires bytes { Bytes bytes.now }
    requires n_in_bounds { from + n ≤ length bytes.now }
    requires n_len_bound { length (state_at m.old).transfer.host + n ≤ 128 }
    ensures { IsBlock (state_at m.old) ((state_at m.old).transfer.host ++ take n (drop from bytes.now)) m.new result }
{
    host_filled(m, bytes, from, n);
    settled_in(m)
}

// The first word, by the step: the chip need not be at rest.
fn first_written(m: &mut Image, bytes: &[u8], out: &mut [u8]) -> Passed
    requires image { IsImage m.old }
    requires in_bounds { 2 ≤ length bytes.now }
    requires in_bounds_2 { 8 ≤ length out.old }
    ensures { FirstWritten (state_at m.old) bytes.now out.old m.new out.new result }
{
    let word = [0x60u8, 0, bytes[1], bytes[0]];
    let mut spare = [0u8; SIZE];
    let o = outcome_of(m, &word, &mut spare);
    if o.code != Code::Done {
        return Passed {
            done: 0,
            count: 0,
            code: o.code,
        };
    }
    sent_stored(o.sent, out, 0);
    Passed {
        done: 1,
        count: o.sent.count,
        code: o.code,
    }
}

// The words that the host FIFO has room for.
fn room_in(m: &Image) -> usize
    requires { IsImage m.now }
    ensures { result ≡ (128 - length (state_at m.now).transfer.host) / 2 }
{
    (128 - usize::from(m[HOST_COUNT])) / 2
}

// "write and host FIFO lacks room for the whole access" stops words that are left.
fn ended(done: usize, words: usize) -> Code
    ensures { result ≡ cond (ltb done words) NoRoom Done }
{
    if done < words {
        Code::NoRoom
    } else {
        Code::Done
    }
}

// Words to an image. Few blocks come: room grows only by what the SCSI FIFO takes up.
pub fn written_over(m: &mut Image, bytes: &[u8], words: usize, out: &mut [u8]) -> Passed
    requires image { IsImage m.old }
    requires bytes_len { length bytes.now ≡ 2 * words }
    requires words_in_bounds { 8 * words ≤ length out.old }
    ensures { IsWritten (state_at m.old) bytes.now words out.old m.new out.new result }
{
    if words == 0 {
        return Passed {
            done: 0,
            count: 0,
            code: Code::Done,
        };
    }
    let first = first_written(m, bytes, out);
    if first.done == 0 {
        return first;
    }
    let mut done = 1usize;
    let mut count = first.count;
    let mut room = room_in(m);
    // Each turn changes what the test looks at.
    while (done < words) & (0 < room) {
        let k = (words - done).min(room);
        let sent = block_written(m, bytes, 2 * done, 2 * k);
        sent_stored(sent, out, count);
        count += sent.count;
        done += k;
        room = room_in(m);
    }
    Passed {
        done,
        count,
        code: ended(done, words),
    }
}
