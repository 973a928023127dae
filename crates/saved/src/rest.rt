// A chip at rest, by direct tests on its image.
ghost use Rattle.std.specs.Prelude.{◌≡◌, not, ◌||◌};
ghost use Rattle.rules.specs.StepC.{can_move};
ghost use Rattle.rules.specs.StepD.{fifo_conflict, pio_ready};
ghost use Rattle.image.specs.Image.{state_at, registers_at, IsImage};
ghost use Rattle.saved.specs.Tests.{settled, status_shown, quiet_fits, resting};

use crate::calm::is_calm;
use image::bits::{enspchk, fwerr, reqinit, scsiperr, spiordy};
use image::bus::{ack_seen, bsy_seen, path, sel_seen};
use image::layout::{HOST_COUNT, Image, QUIET, SCSI_COUNT};
use interrupts::status::{fifo_conflict, pio_ready};
use rules::chip::Conditions;
use settling::conditions_of;
use settling::shakes::can_handshake;

// No quiet ticks stand where BSY or SEL is seen.
#[tactic(auto, unfolding(crate::specs::Tests::quiet_fits, image::specs::Image::state_at))]
fn quiet_fits(m: &Image) -> bool
    ensures { result ≡ quiet_fits (state_at m.now) }
{
    (m[QUIET] == 0) | !(bsy_seen(m) | sel_seen(m))
}

// FWERR is set where its cause holds.
fn error_shown(m: &Image) -> bool
    ensures { result ≡ ((state_at m.now).status.fwerr || not (fifo_conflict (registers_at m.now))) }
{
    fwerr(m) || !fifo_conflict(m)
}

// SPIORDY is set where its cause holds.
fn ready_shown(m: &Image) -> bool
    ensures { result ≡ ((state_at m.now).status.spiordy || not (pio_ready (state_at m.now))) }
{
    spiordy(m) || !pio_ready(m)
}

// SCSIPERR is clear where ENSPCHK is 0, REQINIT where ACK is seen.
#[tactic(auto, unfolding(crate::specs::Tests::status_shown, image::specs::Image::state_at))]
fn status_shown(m: &Image) -> bool
    ensures { result ≡ status_shown (state_at m.now) }
{
    (enspchk(m) | !scsiperr(m)) & (!reqinit(m) | !ack_seen(m)) & error_shown(m) & ready_shown(m)
}

// "Move a byte between the FIFOs, if path and there is a byte and room."
#[tactic(auto, using(crate::proofs::Settled::move_out, crate::proofs::Settled::move_in, image::proofs::AtPlaces::at_host, image::proofs::AtPlaces::at_scsi))]
fn can_move(m: &Image, c: Conditions) -> bool
    requires { IsImage m.now }
    ensures { result ≡ can_move c (state_at m.now).transfer }
{
    let scsi = m[SCSI_COUNT];
    let host = m[HOST_COUNT];
    if c.outbound {
        c.path & ((0 < host) & (scsi < 8))
    } else {
        c.path & ((0 < scsi) & (host < 128))
    }
}

// Neither a move nor a handshake is possible; without a path neither is.
#[tactic(auto, using(crate::proofs::Settled::looked_settled, crate::proofs::Settled::pathless_settled), unfolding(image::specs::Image::state_at))]
fn is_settled(m: &Image) -> bool
    requires { IsImage m.now }
    ensures { result ≡ settled (state_at m.now) }
{
    if !path(m) {
        return true;
    }
    let c = conditions_of(m);
    !can_move(m, c) & !can_handshake(m, c)
}

#[tactic(auto, unfolding(crate::specs::Tests::resting))]
pub fn is_resting(m: &Image) -> bool
    requires { IsImage m.now }
    ensures { result ≡ resting (state_at m.now) }
{
    quiet_fits(m) & status_shown(m) & is_calm(m) & is_settled(m)
}
