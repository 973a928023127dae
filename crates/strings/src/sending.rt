// Bytes that find synchronous REQs outstanding and the SCSI FIFO empty go out as they come, all at once.
ghost use Rattle.std.specs.Prelude.{◌≡◌, true, [], ◌+◌, ◌-◌, ◌%◌, ◌<◌, ◌≤◌, min, length, take, drop, get_or};
ghost use Rattle.fifos.specs.Fifos.{sent_of};
ghost use Rattle.image.specs.Image.{IsImage, image_of, state_at};
ghost use Rattle.rules.specs.Changed.{with_transfer, with_counter, with_offset, with_last, transfer_with_host};
ghost use Rattle.rules.specs.StepC.{conditions};
ghost use Rattle.settling.specs.Blocks.{carried};

use datapath::host::host_popped;
use fifos::Sent;
use image::copies::copied;
use image::layout::{
    COUNTER_LOW, HOST_BYTES, HOST_COUNT, Image, LAST, OFFSET, SCSI_BYTES, SCSI_COUNT,
};
use settling::conditions_of;

// Whether n bytes go out at once; not where the counter's low byte would carry, which is seldom.
pub fn goes_out(m: &Image, n: usize) -> bool
    requires image { IsImage m.now }
    requires n_bound { n ≤ 8 }
    ensures n_nonzero { result ≡ true → (0 < n) × ((state_at m.now).transfer.scsi ≡ []) × ((state_at m.now).transfer.counter % 256 + n < 256) }
    ensures m_value { result ≡ true → ((conditions (state_at m.now)).enabled ≡ true) × ((conditions (state_at m.now)).outbound ≡ true) × ((conditions (state_at m.now)).synchronous ≡ true) }
{
    if n == 0 {
        return false;
    }
    if 0 < m[SCSI_COUNT] {
        return false;
    }
    if 255 < usize::from(m[COUNTER_LOW]) + n {
        return false;
    }
    let c = conditions_of(m);
    c.enabled & c.outbound & c.synchronous
}

// The n oldest bytes of the host FIFO, which stay.
pub fn oldest_of(m: &Image, n: usize) -> Sent
    requires image { IsImage m.now }
    requires n_bound { n ≤ 8 }
    requires n_in_bounds { n ≤ length (state_at m.now).transfer.host }
    ensures { result ≡ sent_of (take n (state_at m.now).transfer.host) }
{
    let mut bytes = [0u8; 8];
    bytes[..n].copy_from_slice(&m[HOST_BYTES..HOST_BYTES + n]);
    Sent { bytes, count: n }
}

// What the ACKs of the n oldest bytes leave: the byte last sent, the offset and the counter.
pub fn acknowledged_by(m: &mut Image, n: usize)
    requires image { IsImage m.old }
    requires n_nonzero { 0 < n }
    requires n_bound { n ≤ (state_at m.old).transfer.offset }
    requires n_in_bounds { n ≤ length (state_at m.old).transfer.host }
    requires n_bound_2 { (state_at m.old).transfer.counter % 256 + n < 256 }
    ensures { m.new ≡ image_of (with_counter ((state_at m.old).transfer.counter + n) (with_offset ((state_at m.old).transfer.offset - n) (with_last (get_or (state_at m.old).transfer.host (n - 1) 0) (state_at m.old)))) }
{
    // Both are read first: a proof knows what stood there before a store, and of a read behind one only by one step more each.
    let open = m[OFFSET];
    let low = m[COUNTER_LOW];
    m[LAST] = m[HOST_BYTES + (n - 1)];
    m[OFFSET] = open - (n as u8);
    m[COUNTER_LOW] = low + (n as u8);
}

// The n oldest bytes are gone, and those behind them fill the SCSI FIFO: the host FIFO moves down once for both.
pub fn filled_behind(m: &mut Image, n: usize)
    requires image { IsImage m.old }
    requires m_value { (state_at m.old).transfer.scsi ≡ [] }
    requires n_in_bounds { n ≤ length (state_at m.old).transfer.host }
    ensures { m.new ≡ image_of (with_transfer (carried true (min (length (state_at m.old).transfer.host - n) 8) (transfer_with_host (drop n (state_at m.old).transfer.host) (state_at m.old).transfer)) (state_at m.old)) }
{
    let k = (usize::from(m[HOST_COUNT]) - n).min(8);
    copied(m, HOST_BYTES + n, SCSI_BYTES, k);
    m[SCSI_COUNT] = k as u8;
    host_popped(m, n + k);
}
