// Words read: the first by the step, which leaves any chip at rest; the others as blocks, each settled once.
ghost use Rattle.std.specs.Prelude.{◌≡◌, ◌+◌, ◌*◌, ◌≤◌, length};
ghost use Rattle.image.specs.Image.{IsImage, state_at};
ghost use Rattle.strings.specs.Passed.{IsFetched};
ghost use Rattle.strings.specs.Fetching.{IsBlockFetched};

use crate::Passed;
use crate::blocks::{host_copied, settled_in};
use datapath::host::host_popped;
use event::stepping::outcome_of;
use image::layout::{HOST_COUNT, Image, SIZE};
use rules::codes::Code;

// n bytes off the front of the host FIFO into a lent buffer, as a block.
fn block_fetched(m: &mut Image, n: usize, out: &mut [u8], at: usize)
    requires image { IsImage m.old }
    requires n_in_bounds { n ≤ length (state_at m.old).transfer.host }
    requires n_in_bounds_2 { at + n ≤ length out.old }
    ensures { IsBlockFetched (state_at m.old) n at out.old m.new out.new }
{
    host_copied(m, n, out, at);
    host_popped(m, n);
    let _sent = settled_in(m);
}

// The first word, by the step: the chip need not be at rest. It tells of one word or none as a call does, by the number that its clause
// speaks of.
fn first_fetched(m: &mut Image, out: &mut [u8]) -> Passed
    requires image { IsImage m.old }
    requires in_bounds { 2 ≤ length out.old }
    ensures { IsFetched (state_at m.old) 1 out.old m.new out.new result }
{
    let word = [0x80u8, 0, 0, 0];
    let mut spare = [0u8; SIZE];
    let o = outcome_of(m, &word, &mut spare);
    if o.code != Code::Done {
        return Passed {
            done: 0,
            count: 0,
            code: o.code,
        };
    }
    out[0] = (o.value % 256) as u8;
    out[1] = (o.value / 256) as u8;
    Passed {
        done: 1,
        count: 2,
        code: o.code,
    }
}

// Words read from an image: the first by the step, the others as blocks of all the words that the host FIFO holds.
pub fn fetched_over(m: &mut Image, words: usize, out: &mut [u8]) -> Passed
    requires image { IsImage m.old }
    requires out_len { length out.old ≡ 2 * words }
    ensures { IsFetched (state_at m.old) words out.old m.new out.new result }
{
    if words == 0 {
        return Passed {
            done: 0,
            count: 0,
            code: Code::Done,
        };
    }
    let first = first_fetched(m, out);
    if first.done == 0 {
        return first;
    }
    let mut done = 1;
    let mut held = usize::from(m[HOST_COUNT]);
    // Each turn changes what the test looks at.
    while (done < words) & (1 < held) {
        let k = (words - done).min(held / 2);
        block_fetched(m, 2 * k, out, 2 * done);
        done += k;
        held = usize::from(m[HOST_COUNT]);
    }
    let code = if done == words {
        Code::Done
    } else {
        Code::NoBytes
    };
    Passed {
        done,
        count: 2 * done,
        code,
    }
}
