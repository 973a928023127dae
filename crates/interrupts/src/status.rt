// The status byte.
ghost use Rattle.std.specs.Prelude.{◌≡◌, false, ◌&&◌, cond};
ghost use Rattle.rules.specs.Seen.{ack_seen, automatic};
ghost use Rattle.rules.specs.StepA.{status_a};
ghost use Rattle.rules.specs.StepD.{fifo_conflict, pio_ready, status_raised, status_d};
ghost use Rattle.rules.specs.declared.records.Event.TheVariants.{Write, WordRead};
ghost use Rattle.rules.specs.Changed.{with_status};
ghost use Rattle.image.specs.Image.{IsImage, image_of, state_at, registers_at};

use image::bits::{automatic_ack, enspchk, kept_bad, reqinit, scsien, scsiperr, spiordy};
use image::bus::{ack_seen, automatic, matched, normal, path, req_seen};
use image::bytes::{status_byte, status_of};
use image::layout::{Image, STATUS};
use rules::chip::Status;
use rules::map::Register;

// Callers compute t first: an element is read before the array is lent.
#[tactic(auto, using(crate::proofs::StatusAndLatchBytes::status_placed))]
fn status_put(m: &mut Image, t: Status)
    requires { IsImage m.old }
    ensures { m.new ≡ image_of (with_status t (state_at m.old)) }
{
    m[STATUS] = status_byte(t);
}

// R-2: "a clear with ENSPCHK set copies [the kept parity] to the status"
fn error_written(enspchk: bool, kept: bool, error: bool, cleared: bool) -> bool
    ensures { result ≡ (enspchk && cond cleared kept error) }
{
    enspchk && if cleared { kept } else { error }
}

// "A write to 34Ch clears the named status bits and latches"; "34Fh clears errors."
#[tactic(auto, unfolding(rules::specs::StepA::error_a, rules::specs::StepA::status_a, rules::specs::StepA::clears, rules::specs::StepA::clears_error, rules::specs::Events::writes, rules::specs::Events::value_of))]
fn status_written(enspchk: bool, kept: bool, t: Status, offset: u8, value: u8) -> Status
    ensures { result ≡ status_a false false enspchk kept t (Write offset value) }
{
    let clears = offset == map::offset_of(Register::CLRSINT1);
    let errors = offset == map::offset_of(Register::CLRSERR);
    let error = error_written(enspchk, kept, t.scsiperr, clears & ((value >> 2) % 2 == 1));
    Status {
        scsirsti: !(clears & ((value >> 5) % 2 == 1)) & t.scsirsti,
        busfree: !(clears & ((value >> 3) % 2 == 1)) & t.busfree,
        scsiperr: error,
        phasechg: !(clears & ((value >> 1) % 2 == 1)) & t.phasechg,
        reqinit: !(clears & ((value >> 0) % 2 == 1)) & t.reqinit,
        syncerr: !(errors & ((value >> 2) % 2 == 1)) & t.syncerr,
        fwerr: !(errors & ((value >> 1) % 2 == 1)) & t.fwerr,
        ..t
    }
}

// Where no register is written, as at a word read; the kept parity is not asked then.
#[tactic(auto, unfolding(rules::specs::StepA::error_a, rules::specs::StepA::status_a, rules::specs::StepA::clears, rules::specs::StepA::clears_error, rules::specs::Events::writes))]
fn status_kept(accessed: bool, acked: bool, enspchk: bool, t: Status) -> Status
    ensures { result ≡ status_a accessed acked enspchk false t WordRead }
{
    Status {
        spiordy: !accessed & t.spiordy,
        scsiperr: enspchk & t.scsiperr,
        reqinit: !acked & t.reqinit,
        ..t
    }
}

// "While ENSPCHK is 0, SCSIPERR is held at 0": at every event. Most change nothing.
pub fn status_kept_in(m: &mut Image, accessed: bool, acked: bool)
    requires { IsImage m.old }
    ensures { m.new ≡ image_of (with_status (status_a accessed acked (state_at m.old).registers.sxfrctl1.enspchk (state_at m.old).keptbad (state_at m.old).status WordRead) (state_at m.old)) }
{
    let enspchk = enspchk(m);
    if !accessed & !acked & (enspchk | !scsiperr(m)) {
        return;
    }
    let t = status_kept(accessed, acked, enspchk, status_of(m[STATUS]));
    status_put(m, t);
}

// A write of 34Ch or 34Fh.
pub fn status_written_in(m: &mut Image, offset: u8, value: u8)
    requires { IsImage m.old }
    ensures { m.new ≡ image_of (with_status (status_a false false (state_at m.old).registers.sxfrctl1.enspchk (state_at m.old).keptbad (state_at m.old).status (Write offset value)) (state_at m.old)) }
{
    let t = status_written(enspchk(m), kept_bad(m), status_of(m[STATUS]), offset, value);
    status_put(m, t);
}

// "Each ACK ... clears REQINIT." "REQINIT also falls when ACK is seen."
pub fn fallen_in(m: &mut Image, acks: u8)
    requires { IsImage m.old }
    ensures { m.new ≡ image_of (with_status (status_d acks (ack_seen (state_at m.old)) (state_at m.old).status) (state_at m.old)) }
{
    if !reqinit(m) {
        return;
    }
    if (acks == 0) & !ack_seen(m) {
        return;
    }
    let t = Status {
        reqinit: false,
        ..status_of(m[STATUS])
    };
    status_put(m, t);
}

// "Normal mode with DMAEN, SCSIEN and no path sets FWERR."
#[tactic(auto, unfolding(rules::specs::StepD::fifo_conflict, image::specs::Image::state_at))]
pub fn fifo_conflict(m: &Image) -> bool
    ensures { result ≡ fifo_conflict (registers_at m.now) }
{
    normal(m) && scsien(m) && !path(m)
}

// "Automatic mode, matched, REQ seen, automatic ACK off sets SPIORDY."
#[tactic(auto, unfolding(rules::specs::StepD::pio_ready, image::specs::Image::state_at))]
pub fn pio_ready(m: &Image) -> bool
    ensures { result ≡ pio_ready (state_at m.now) }
{
    automatic(m) && matched(m) && req_seen(m) && !automatic_ack(m)
}

// SPIORDY is set, and in Automatic mode FWERR does not rise: nothing is left to rise.
fn is_raised(m: &Image) -> bool
    ensures { result ≡ ((state_at m.now).status.spiordy && automatic (registers_at m.now)) }
{
    spiordy(m) && automatic(m)
}

// What each status rose to in the event: SPIORDY in Automatic mode, or FWERR in Normal mode.
pub fn raised_in(m: &mut Image)
    requires { IsImage m.old }
    ensures { m.new ≡ image_of (with_status (status_raised (state_at m.old)) (state_at m.old)) }
{
    if is_raised(m) {
        return;
    }
    if pio_ready(m) {
        let t = Status {
            spiordy: true,
            ..status_of(m[STATUS])
        };
        status_put(m, t);
        return;
    }
    if fifo_conflict(m) {
        let t = Status {
            fwerr: true,
            ..status_of(m[STATUS])
        };
        status_put(m, t);
    }
}
