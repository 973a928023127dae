// The frequent edges, each by itself, in place.
ghost use Rattle.std.specs.Prelude.{◌≡◌, true, false, ◌&&◌, ◌<◌, get_or};
ghost use Rattle.rules.specs.Seen.{io_seen};
ghost use Rattle.rules.specs.StepB.{beyond_limit};
ghost use Rattle.image.specs.Image.{image_of, state_at};
ghost use Rattle.edges.specs.From.{synchronous_req_from};
ghost use Rattle.edges.specs.Frequent.{raised_b, phase_b, inbound_b, call_b, risen_b, req_b};
ghost use Rattle.edges.specs.Stored.{status_stored};
ghost use Rattle.image.specs.Layout.{scsi_count_place};

use crate::found::{beyond_limit, synchronous_req};
use datapath::scsi::byte_stored;
use image::bus::{io_seen, mismatched, req_seen, rst_seen};
use image::bytes::{status_byte, status_of};
use image::layout::{ACK, Image, LINES_DATA, OFFSET, SCSI_COUNT, STATUS};
use rules::chip::Status;

// PHASECHG, REQINIT and SYNCERR set, the rest of the status as it was.
fn raised_in(m: &mut Image, phase: bool, req: bool, late: bool)
    ensures { m.new ≡ status_stored (raised_b phase req late) m.old }
{
    let t = status_of(m[STATUS]);
    m[STATUS] = status_byte(Status {
        phasechg: phase | t.phasechg,
        reqinit: req | t.reqinit,
        syncerr: late | t.syncerr,
        ..t
    });
}

// "PHASECHG is set when "connected and not matched" is true here and was false"
pub fn phase_in(m: &mut Image, was: bool)
    requires { m.old ≡ image_of (state_at m.old) }
    ensures { m.new ≡ image_of (phase_b was (state_at m.old)) }
{
    if !was && mismatched(m) {
        raised_in(m, true, false, false);
    }
}

// An inbound byte, SYNCERR where it is late: while IO is seen the chip drives no data, so it is the byte of others.
fn inbound_in(m: &mut Image)
    requires m_value { m.old ≡ image_of (state_at m.old) }
    requires scsi_count_place_bound { io_seen (state_at m.old) ≡ true → get_or m.old scsi_count_place 0 < 8 }
    ensures { m.new ≡ image_of (inbound_b true (state_at m.old)) }
{
    if !io_seen(m) {
        return;
    }
    let late = (m[OFFSET] == 0) & (0 < m[SCSI_COUNT]);
    // read before the array is lent
    let byte = m[LINES_DATA];
    byte_stored(m, byte);
    if late {
        raised_in(m, false, false, true);
    }
}

// A REQ that rose: a synchronous one is within the limit, or is beyond the limit.
fn risen(m: &mut Image) -> bool
    requires { m.old ≡ image_of (state_at m.old) }
    ensures value { result ≡ (call_b (state_at m.old) && beyond_limit (state_at m.old)) }
    ensures m_after { m.new ≡ image_of (risen_b (call_b (state_at m.old)) (state_at m.old)) }
{
    if !synchronous_req(m, true) {
        return false;
    }
    if beyond_limit(m, true) {
        return true;
    }
    inbound_in(m);
    m[OFFSET] += 1;
    false
}

// REQ as it was seen last and is seen now; whether it went beyond the limit.
pub fn req_in(m: &mut Image, was: bool) -> bool
    requires { m.old ≡ image_of (state_at m.old) }
    ensures value { result ≡ (synchronous_req_from was (state_at m.old) && beyond_limit (state_at m.old)) }
    ensures m_after { m.new ≡ image_of (req_b was (state_at m.old)) }
{
    let req = req_seen(m);
    if req == was {
        return false;
    }
    if !req {
        m[ACK] = 0;
        return false;
    }
    if rst_seen(m) {
        return false;
    }
    raised_in(m, false, true, false);
    risen(m)
}
