// The latch byte.
ghost use Rattle.std.specs.Prelude.{◌≡◌, false, get_or};
ghost use Rattle.rules.specs.Interrupts.{latched};
ghost use Rattle.rules.specs.Registers.{simode0_of, simode1_of};
ghost use Rattle.rules.specs.StepA.{latches_a};
ghost use Rattle.rules.specs.declared.records.Event.TheVariants.{Write};
ghost use Rattle.rules.specs.Changed.{with_latches};
ghost use Rattle.image.specs.Image.{IsImage, image_of, state_at, status_of, latches_of};
ghost use Rattle.image.specs.Layout.{simode0_place, simode1_place};
ghost use Rattle.interrupts.specs.Latching.{latches_from, any_enable};

use image::bytes::{latches_byte, latches_of, status_of};
use image::layout::{Image, LATCHES, SIMODE0, SIMODE1};
use registers::bytes::Stored;
use rules::chip::{Latches, Status};
use rules::map::Register;
use rules::registers::{Simode0, Simode1};

// 350h and 351h, whose bits enable the interrupts, as they stand in an image.
#[derive(Clone, Copy, PartialEq, Eq)]
pub struct Enables {
    pub simode0: u8,
    pub simode1: u8,
}

pub fn enables_in(m: &Image) -> Enables
    ensures simode0_value { result.simode0 ≡ get_or m.now simode0_place 0 }
    ensures simode1_value { result.simode1 ≡ get_or m.now simode1_place 0 }
{
    Enables {
        simode0: m[SIMODE0],
        simode1: m[SIMODE1],
    }
}

// Callers compute k first: an element is read before the array is lent.
#[tactic(auto, using(crate::proofs::StatusAndLatchBytes::latches_placed))]
fn latches_put(m: &mut Image, k: Latches)
    requires { IsImage m.old }
    ensures { m.new ≡ image_of (with_latches k (state_at m.old)) }
{
    m[LATCHES] = latches_byte(k);
}

// "A write to 34Ch clears the named status bits and latches"; "34Bh clears latches only".
#[tactic(auto, unfolding(rules::specs::StepA::latches_a, rules::specs::StepA::clears, rules::specs::StepA::clears_latch, rules::specs::Events::writes, rules::specs::Events::value_of))]
fn latches_written(k: Latches, offset: u8, value: u8) -> Latches
    ensures { result ≡ latches_a k (Write offset value) }
{
    let clears = offset == map::offset_of(Register::CLRSINT1);
    let ready = offset == map::offset_of(Register::CLRSINT0);
    Latches {
        spiordy: !(ready & ((value >> 1) % 2 == 1)) & k.spiordy,
        scsirsti: !(clears & ((value >> 5) % 2 == 1)) & k.scsirsti,
        busfree: !(clears & ((value >> 3) % 2 == 1)) & k.busfree,
        scsiperr: !(clears & ((value >> 2) % 2 == 1)) & k.scsiperr,
        phasechg: !(clears & ((value >> 1) % 2 == 1)) & k.phasechg,
        reqinit: !(clears & ((value >> 0) % 2 == 1)) & k.reqinit,
    }
}

// A write of 34Bh or 34Ch.
pub fn latches_written_in(m: &mut Image, offset: u8, value: u8)
    requires { IsImage m.old }
    ensures { m.new ≡ image_of (with_latches (latches_a (state_at m.old).latches (Write offset value)) (state_at m.old)) }
{
    let k = latches_written(latches_of(m[LATCHES]), offset, value);
    latches_put(m, k);
}

// "A latch sets when its status rises ... while enabled, or when the enable rises while status is 1."
fn sets(enable: bool, before: bool, status: bool, raised: bool) -> bool
    ensures { result ≡ latched (record { kept = false; enable = enable; enabled_before = before; status = status; raised = raised }) }
{
    enable & ((raised & !status) | (status & !before))
}

// Is the interrupt of any latch enabled?
fn any_enable(now: Enables) -> bool
    ensures { result ≡ any_enable (simode0_of now.simode0) (simode1_of now.simode1) }
{
    ((now.simode0 >> 1) % 2 == 1)
        | ((now.simode1 >> 5) % 2 == 1)
        | ((now.simode1 >> 3) % 2 == 1)
        | ((now.simode1 >> 2) % 2 == 1)
        | ((now.simode1 >> 1) % 2 == 1)
        | ((now.simode1 >> 0) % 2 == 1)
}

// SPIORDY is enabled in 350h, the others in 351h; what is set stays.
fn latches_from(before: Enables, now: Enables, t: Status, raised: Status, k: Latches) -> Latches
    ensures { result ≡ latches_from (simode0_of before.simode0) (simode1_of before.simode1) (simode0_of now.simode0) (simode1_of now.simode1) t raised k }
{
    let b0 = Simode0::from_byte(before.simode0);
    let b1 = Simode1::from_byte(before.simode1);
    let r0 = Simode0::from_byte(now.simode0);
    let r1 = Simode1::from_byte(now.simode1);
    Latches {
        spiordy: k.spiordy | sets(r0.enspiordy, b0.enspiordy, t.spiordy, raised.spiordy),
        scsirsti: k.scsirsti | sets(r1.enscsirst, b1.enscsirst, t.scsirsti, raised.scsirsti),
        busfree: k.busfree | sets(r1.enbusfree, b1.enbusfree, t.busfree, raised.busfree),
        scsiperr: k.scsiperr | sets(r1.enscsiperr, b1.enscsiperr, t.scsiperr, raised.scsiperr),
        phasechg: k.phasechg | sets(r1.enphasechg, b1.enphasechg, t.phasechg, raised.phasechg),
        reqinit: k.reqinit | sets(r1.enreqinit, b1.enreqinit, t.reqinit, raised.reqinit),
    }
}

// The latches after D: before holds the enables before the event, status is the status byte after A, raised what it rose to.
// None is set where nothing rose, or where no interrupt is enabled.
pub fn latched_in(m: &mut Image, before: Enables, status: u8, raised: u8)
    requires { IsImage m.old }
    ensures { m.new ≡ image_of (with_latches (latches_from (simode0_of before.simode0) (simode1_of before.simode1) (state_at m.old).registers.simode0 (state_at m.old).registers.simode1 (status_of status) (status_of raised) (state_at m.old).latches) (state_at m.old)) }
{
    let now = enables_in(m);
    if (now == before) & (status == raised) {
        return;
    }
    if !any_enable(now) {
        return;
    }
    let k = latches_from(
        before,
        now,
        status_of(status),
        status_of(raised),
        latches_of(m[LATCHES]),
    );
    latches_put(m, k);
}
