// Ticks that change nothing but the counts, many at a time: how far the next change is, and what the ticks before it leave.
#![tactic(auto, unfolding(image::specs::Image::state_at, rules::specs::StepB::quiet_after, rules::specs::Ticks::bus_waits, rules::specs::Ticks::bus_free_distance, rules::specs::Ticks::distance, rules::specs::Ticks::distance_in, rules::specs::Ticks::ticks_in))]

ghost use Rattle.std.specs.Prelude.{◌≡◌, cond, eqb, ◌<◌};
ghost use Rattle.rules.specs.Counter.{counter_size};
ghost use Rattle.rules.specs.Rest.{AtRest};
ghost use Rattle.rules.specs.StepB.{quiet_after};
ghost use Rattle.rules.specs.Ticks.{bus_taken, bus_waits, ticks_in, advanced, unreached, bus_free_distance, delay_left, distance};
ghost use Rattle.image.specs.Image.{image_of, state_at, IsImage};

use crate::called::timeout;
use image::bus::{bsy_seen, quiet_added, sel_seen};
use image::layout::{Image, QUIET, SXFRCTL1};
use image::sequencer::{phase, sequencer, sequencer_put};
use registers::bytes::Stored;
use rules::chip::{Phase, Sequencer};
use rules::registers::Sxfrctl1;

// More ticks than an event has; no Option, since `distance` of specs/Ticks.antt says this number.
const UNREACHED: u32 = 16777216;

// BSY or SEL is seen.
fn bus_taken(m: &Image) -> bool
    ensures { result ≡ bus_taken (state_at m.now) }
{
    bsy_seen(m) | sel_seen(m)
}

// "if the quiet ticks stood at 8 before this event and BSY and SEL are not seen"
fn bus_waits(m: &Image) -> bool
    ensures { result ≡ bus_waits (state_at m.now) }
{
    (8 <= m[QUIET]) & !bus_taken(m)
}

fn ticks_spent(m: &Image) -> u32
    ensures { result ≡ (state_at m.now).sequencer.ticks }
{
    sequencer(m).ticks
}

// ENSTIMER
fn timer_runs(m: &Image) -> bool
    ensures { result ≡ (state_at m.now).registers.sxfrctl1.enstimer }
{
    Sxfrctl1::from_byte(m[SXFRCTL1]).enstimer
}

// One of two numbers, by a test.
fn picked(test: bool, first: u32, second: u32) -> u32
    ensures { result ≡ cond test first second }
{
    if test { first } else { second }
}

// The ticks until a delay is over of which some have passed, the last of them included.
fn delay_left(delay: u32, passed: u32) -> u32
    ensures { result ≡ delay_left delay passed }
{
    delay.saturating_sub(passed).max(1)
}

// "On reaching 8": once, so that quiet ticks that stand at 8 reach it no more.
fn bus_free_distance(m: &Image) -> u32
    ensures { result ≡ bus_free_distance (state_at m.now) }
{
    let quiet = m[QUIET];
    if bus_taken(m) | (8 <= quiet) {
        UNREACHED
    } else {
        u32::from(8 - quiet)
    }
}

// The ticks until the next that can change more than the counts, that one included.
pub fn distance(m: &Image) -> u32
    ensures { result ≡ distance (state_at m.now) }
{
    let p = phase(m);
    let n = ticks_spent(m);
    let free = bus_free_distance(m);
    match p {
        Phase::Idle | Phase::Holding | Phase::Answered => free,
        Phase::Waiting => picked(bus_waits(m), delay_left(16, n), free),
        Phase::Arbitrating => delay_left(48, n),
        Phase::Clearing => delay_left(24, n),
        Phase::Selecting => picked(timer_runs(m), delay_left(timeout(m), n), UNREACHED),
        Phase::Answering => delay_left(8, n),
    }
}

// The ticks in the phase after k ticks more, k at least 1.
fn ticks_in(m: &Image, k: u32) -> u32
    requires m_bound { (state_at m.now).sequencer.ticks < counter_size }
    requires k_lt_unreached { k < unreached }
    ensures { result ≡ ticks_in (state_at m.now).sequencer.phase k (state_at m.now) }
{
    let p = phase(m);
    let n = ticks_spent(m);
    let more = n + k;
    match p {
        Phase::Idle | Phase::Holding | Phase::Answered => n,
        Phase::Waiting => picked(bus_waits(m), more, 0),
        Phase::Arbitrating | Phase::Clearing | Phase::Answering => more,
        Phase::Selecting => picked(timer_runs(m), more, 0),
    }
}

// No ticks leave those in the phase, where a tick may set them to 0.
fn ticks_after(m: &Image, k: u32) -> u32
    requires m_bound { (state_at m.now).sequencer.ticks < counter_size }
    requires k_lt_unreached { k < unreached }
    ensures { result ≡ cond (eqb k 0) (state_at m.now).sequencer.ticks (ticks_in (state_at m.now).sequencer.phase k (state_at m.now)) }
{
    if k == 0 {
        ticks_spent(m)
    } else {
        ticks_in(m, k)
    }
}

// "Quiet ticks: 0 if BSY or SEL is seen"
fn quiet_after(m: &Image, k: u32) -> u8
    ensures { result ≡ quiet_after k (state_at m.now) }
{
    if bus_taken(m) {
        0
    } else {
        quiet_added(m[QUIET], k)
    }
}

// Ticks below the distance, in place: the quiet ticks and the ticks in the phase. A chip is at rest between events only, so no type
// keeps that.
pub fn advanced_in(m: &mut Image, k: u32)
    requires image { IsImage m.old }
    requires at_rest { AtRest (state_at m.old) }
    requires k_bound { k < distance (state_at m.old) }
    ensures { m.new ≡ image_of (advanced k (state_at m.old)) }
{
    let quiet = quiet_after(m, k);
    let ticks = ticks_after(m, k);
    let q = sequencer(m);
    sequencer_put(m, Sequencer { ticks, ..q });
    m[QUIET] = quiet;
}
