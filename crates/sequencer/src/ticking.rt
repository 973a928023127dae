// "If the event is a tick, by phase"; n is the number of ticks spent in the phase once this one is counted.
#![tactic(auto, unfolding(image::specs::Image::state_at, rules::specs::Sequencer::arbitrates, rules::specs::Sequencer::waiting_for, rules::specs::Sequencer::arbitrating_for, rules::specs::Sequencer::selects, rules::specs::Sequencer::clearing_for, rules::specs::Sequencer::times_out, rules::specs::Sequencer::selecting_for, rules::specs::Sequencer::reselected, rules::specs::Sequencer::answering_for, rules::specs::Sequencer::tick_in))]

ghost use Rattle.std.specs.Prelude.{◌≡◌, cond, ◌+◌, ◌<◌};
ghost use Rattle.rules.specs.Counter.{counter_size};
ghost use Rattle.rules.specs.Sequencer.{arbitrates, waiting_for, arbitrating_for, selects, clearing_for, times_out, selecting_for, reselected, answering_for, tick_in};
ghost use Rattle.rules.specs.declared.chip.Phase.TheVariants.{Idle, Waiting, Clearing, Holding};
ghost use Rattle.image.specs.Image.{state_at};

use crate::called::{higher_id, timeout};
use crate::changes::{entered, in_phase, waited};
use crate::raised::{seldi_raised, selingo_cleared, selingo_raised, selto_raised};
use image::bus::{bsy_seen, sel_seen};
use image::layout::{Image, LINES_DATA, SCSISEQ, SIMODE1, SXFRCTL1};
use registers::bytes::Stored;
use rules::chip::{Phase, Sequenced};
use rules::registers::{Scsiseq, Simode1, Sxfrctl1};

// "arbitrating, SELINGO 0, quiet ticks 0"
fn arbitrates(x: Sequenced) -> Sequenced
    ensures { result ≡ arbitrates x }
{
    Sequenced {
        sequencer: selingo_cleared(in_phase(Phase::Arbitrating, x.sequencer)),
        quiet: 0,
        ..x
    }
}

fn waiting_for(n: u32, x: Sequenced) -> Sequenced
    ensures { result ≡ waiting_for n x }
{
    if 16 <= n { arbitrates(x) } else { waited(n, x) }
}

// "lost: waiting; else clearing"
fn arbitrated(higher: bool) -> Phase
    ensures { result ≡ cond higher Waiting Clearing }
{
    if higher {
        Phase::Waiting
    } else {
        Phase::Clearing
    }
}

fn arbitrating_for(m: &Image, n: u32, x: Sequenced) -> Sequenced
    ensures { result ≡ arbitrating_for (state_at m.now) n x }
{
    if 48 <= n {
        entered(arbitrated(higher_id(m)), x)
    } else {
        waited(n, x)
    }
}

// "selecting, SELINGO rises, and with ENAUTOATNO 343h bit 4 is set"
fn selects(m: &Image, x: Sequenced) -> Sequenced
    ensures { result ≡ selects (state_at m.now) x }
{
    Sequenced {
        sequencer: selingo_raised(m, in_phase(Phase::Selecting, x.sequencer)),
        atno: Scsiseq::from_byte(m[SCSISEQ]).enautoatno | x.atno,
        ..x
    }
}

fn clearing_for(m: &Image, n: u32, x: Sequenced) -> Sequenced
    ensures { result ≡ clearing_for (state_at m.now) n x }
{
    if 24 <= n { selects(m, x) } else { waited(n, x) }
}

// "idle with ENSELTIMO, else holding"
fn timed_out(enabled: bool) -> Phase
    ensures { result ≡ cond enabled Idle Holding }
{
    if enabled { Phase::Idle } else { Phase::Holding }
}

// "SELTO rises, ENSELO becomes 0"
fn times_out(m: &Image, x: Sequenced) -> Sequenced
    ensures { result ≡ times_out (state_at m.now) x }
{
    let p = timed_out(Simode1::from_byte(m[SIMODE1]).enseltimo);
    Sequenced {
        sequencer: selto_raised(m, in_phase(p, x.sequencer)),
        enselo: false,
        ..x
    }
}

fn selecting_for(m: &Image, n: u32, x: Sequenced) -> Sequenced
    ensures { result ≡ selecting_for (state_at m.now) n x }
{
    if timeout(m) <= n {
        times_out(m, x)
    } else {
        waited(n, x)
    }
}

// "answered, 345h takes the data that others drive, SELDI becomes 1 ... and with ENAUTOATNI 343h bit 4 is set"
fn reselected(m: &Image, x: Sequenced) -> Sequenced
    ensures { result ≡ reselected (state_at m.now) x }
{
    Sequenced {
        sequencer: seldi_raised(m, m[LINES_DATA], in_phase(Phase::Answered, x.sequencer)),
        atno: Scsiseq::from_byte(m[SCSISEQ]).enautoatni | x.atno,
        ..x
    }
}

fn answering_for(m: &Image, n: u32, x: Sequenced) -> Sequenced
    ensures { result ≡ answering_for (state_at m.now) n x }
{
    if 8 <= n {
        reselected(m, x)
    } else {
        waited(n, x)
    }
}

// One tick more, or 0 ticks.
fn more(counts: bool, ticks: u32) -> u32
    requires { ticks < counter_size }
    ensures { result ≡ cond counts (ticks + 1) 0 }
{
    if counts { ticks + 1 } else { 0 }
}

pub fn tick_in(m: &Image, before: u8, x: Sequenced) -> Sequenced
    requires { x.sequencer.ticks < counter_size }
    ensures { result ≡ tick_in x.sequencer.phase before (state_at m.now) x }
{
    let ticks = x.sequencer.ticks;
    let timer = Sxfrctl1::from_byte(m[SXFRCTL1]);
    match x.sequencer.phase {
        Phase::Idle | Phase::Holding | Phase::Answered => x,
        Phase::Waiting => {
            let quiet = (8 <= before) & !(bsy_seen(m) | sel_seen(m));
            waiting_for(more(quiet, ticks), x)
        }
        Phase::Arbitrating => arbitrating_for(m, ticks + 1, x),
        Phase::Clearing => clearing_for(m, ticks + 1, x),
        Phase::Selecting => selecting_for(m, more(timer.enstimer, ticks), x),
        Phase::Answering => answering_for(m, ticks + 1, x),
    }
}
