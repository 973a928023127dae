// R-2 at a REQ that rises: the parity of an inbound byte is kept, and a new error is latched where it is enabled.
ghost use Rattle.std.specs.Prelude.{◌≡◌, true, ◌&&◌};
ghost use Rattle.image.specs.Image.{image_of, state_at};
ghost use Rattle.edges.specs.ParityKept.{kept_from};
ghost use Rattle.edges.specs.Stored.{latches_stored};
ghost use Rattle.edges.specs.From.{req_rises_from};
ghost use Rattle.edges.specs.Tests.{inbound_bad};

use crate::found::{inbound, is_bad, req_rises};
use image::bits::{enscsiperr, enspchk};
use image::bytes::{latches_byte, latches_of};
use image::layout::{Image, KEPT_PARITY, LATCHES};
use rules::chip::Latches;

// The latch of SCSIPERR, even if it is set.
fn latched_in(m: &mut Image)
    ensures { m.new ≡ latches_stored true m.old }
{
    let k = latches_of(m[LATCHES]);
    m[LATCHES] = latches_byte(Latches {
        scsiperr: true,
        ..k
    });
}

// Whether there is an error is told, so that it is judged once.
pub fn kept_in(m: &mut Image, was: bool) -> bool
    requires { m.old ≡ image_of (state_at m.old) }
    ensures value { result ≡ (req_rises_from was (state_at m.old) && inbound_bad (state_at m.old)) }
    ensures m_after { m.new ≡ image_of (kept_from was (state_at m.old)) }
{
    if !req_rises(m, was) {
        return false;
    }
    if !inbound(m) {
        return false;
    }
    let bad = is_bad(m);
    let error = enspchk(m) & bad;
    let latches = error & enscsiperr(m);
    m[KEPT_PARITY] = bad as u8;
    if latches {
        latched_in(m);
    }
    error
}
