// Runs of bytes into the host FIFO of an image, and out of it and of what was sent into a lent buffer.
ghost use Rattle.std.specs.Prelude.{◌≡◌, ◌++◌, ◌+◌, ◌≤◌, length, take, drop};
ghost use Rattle.std.proofs.Math.Seq.{paste};
ghost use Rattle.fifos.specs.Fifos.{sent_view};
ghost use Rattle.image.specs.Image.{image_of, state_at, IsImage};
ghost use Rattle.image.specs.Layout.{image_size};
ghost use Rattle.rules.specs.Changed.{with_host};
ghost use Rattle.strings.specs.Passed.{IsBlock};

use crate::sending::{acknowledged_by, filled_behind, goes_out, oldest_of};
use fifos::Sent;
use image::layout::{HOST_BYTES, HOST_COUNT, Image, OFFSET};
use interrupts::status::fallen_in;
use settling::settle;

// n bytes of a run at a place of the array: the copy alone, with no FIFO in its contract.
fn laid_at(m: &mut Image, at: usize, bytes: &[u8], from: usize, n: usize)
    requires n_bound { at + n ≤ image_size }
    requires n_in_bounds { from + n ≤ length bytes.now }
    ensures { m.new ≡ paste m.old at (drop from bytes.now) n }
{
    m[at..at + n].copy_from_slice(&bytes[from..from + n]);
}

// n bytes of a run behind those of the host FIFO.
pub fn host_filled(m: &mut Image, bytes: &[u8], from: usize, n: usize)
    requires image { IsImage m.old }
    requires n_in_bounds { from + n ≤ length bytes.now }
    requires n_len_bound { length (state_at m.old).transfer.host + n ≤ 128 }
    ensures { m.new ≡ image_of (with_host ((state_at m.old).transfer.host ++ take n (drop from bytes.now)) (state_at m.old)) }
{
    let held = usize::from(m[HOST_COUNT]);
    laid_at(m, HOST_BYTES + held, bytes, from, n);
    m[HOST_COUNT] = (held + n) as u8;
}

// The n oldest bytes of the host FIFO, at a place of a lent buffer; they stay.
pub fn host_copied(m: &Image, n: usize, out: &mut [u8], at: usize)
    requires image { IsImage m.now }
    requires n_in_bounds { n ≤ length (state_at m.now).transfer.host }
    requires n_in_bounds_2 { at + n ≤ length out.old }
    ensures { out.new ≡ (take at out.old ++ take n (state_at m.now).transfer.host) ++ drop (at + n) out.old }
{
    out[at..at + n].copy_from_slice(&m[HOST_BYTES..HOST_BYTES + n]);
}

// The bytes that one settling sent, at a place of a lent buffer.
pub fn sent_stored(s: Sent, out: &mut [u8], at: usize)
    requires count_bound { s.count ≤ 8 }
    requires count_in_bounds { at + s.count ≤ length out.old }
    ensures { out.new ≡ (take at out.old ++ sent_view s) ++ drop (at + s.count) out.old }
{
    out[at..at + s.count].copy_from_slice(&s.bytes[..s.count]);
}

// Settling of what the host FIFO has become, once for all of a block, and REQINIT as D leaves it.
pub fn settled_in(m: &mut Image) -> Sent
    requires { IsImage m.old }
    ensures { IsBlock (state_at m.old) (state_at m.old).transfer.host m.new result }
{
    let n = usize::from(m[OFFSET].min(m[HOST_COUNT]));
    if goes_out(m, n) {
        let sent = oldest_of(m, n);
        acknowledged_by(m, n);
        filled_behind(m, n);
        fallen_in(m, n as u8);
        return sent;
    }
    let t = settle(m);
    fallen_in(m, t.acks);
    // Most often there are none, and what settling left of them is not looked at.
    if t.sent.count == 0 {
        return fifos::empty();
    }
    t.sent
}
