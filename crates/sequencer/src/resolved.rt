// "In every event, ticks or not, in this order"; and RST before it.
#![tactic(auto, using(rules::proofs::Phases::same_phase), unfolding(image::specs::Image::state_at, rules::specs::Sequencer::sequenced_of, rules::specs::Sequencer::silenced, rules::specs::Sequencer::connects, rules::specs::Sequencer::selected, rules::specs::Sequencer::resolved, rules::specs::Sequencer::sequenced))]

ghost use Rattle.std.specs.Prelude.{◌≡◌, cond, ◌<◌};
ghost use Rattle.rules.specs.Counter.{counter_size};
ghost use Rattle.rules.specs.Sequencer.{sequenced_of, silenced, tick_in, uncalled, let_go, forestalled, connects, selected, begun, withdrawn, answers, resolved, sequenced, entered, in_phase};
ghost use Rattle.rules.specs.Seen.{is_phase};
ghost use Rattle.rules.specs.declared.chip.Phase.TheVariants.{Idle};
ghost use Rattle.image.specs.Image.{state_at};

use crate::called::{asked, called};
use crate::changes::{entered, in_phase};
use crate::raised::{seldo_raised, selingo_cleared};
use crate::ticking::tick_in;
use image::bits::{atno, bsy_of_others, sel_of_others};
use image::bus::rst_seen;
use image::layout::{Image, QUIET, SCSISEQ};
use image::sequencer::sequencer;
use registers::bytes::Stored;
use rules::chip::{Phase, Sequenced, Sequencer};
use rules::registers::Scsiseq;

// A change of phase, where a test holds.
fn entered_if(test: bool, p: Phase, x: Sequenced) -> Sequenced
    ensures { result ≡ cond test (entered p x) x }
{
    if test { entered(p, x) } else { x }
}

// "answering, and no longer called: idle"
fn uncalled(m: &Image, x: Sequenced) -> Sequenced
    ensures { result ≡ uncalled (state_at m.now) x }
{
    let test = (x.sequencer.phase == Phase::Answering) & !called(m);
    entered_if(test, Phase::Idle, x)
}

// "answered, and others do not drive SEL: idle"
fn let_go(m: &Image, x: Sequenced) -> Sequenced
    ensures { result ≡ let_go (state_at m.now) x }
{
    let test = (x.sequencer.phase == Phase::Answered) & !sel_of_others(m);
    entered_if(test, Phase::Idle, x)
}

// "arbitrating, and others drive SEL: lost: waiting"
fn forestalled(m: &Image, x: Sequenced) -> Sequenced
    ensures { result ≡ forestalled (state_at m.now) x }
{
    let test = (x.sequencer.phase == Phase::Arbitrating) & sel_of_others(m);
    entered_if(test, Phase::Waiting, x)
}

// "SELDO rises, SELINGO 0, ENSELO becomes 0, idle"
fn connects(m: &Image, x: Sequenced) -> Sequenced
    ensures { result ≡ connects (state_at m.now) x }
{
    Sequenced {
        sequencer: seldo_raised(m, in_phase(Phase::Idle, x.sequencer)),
        enselo: false,
        ..x
    }
}

// "selecting or holding, and others drive BSY"
fn selected(m: &Image, x: Sequenced) -> Sequenced
    ensures { result ≡ selected (state_at m.now) x }
{
    let p = x.sequencer.phase;
    let test = ((p == Phase::Selecting) | (p == Phase::Holding)) & bsy_of_others(m);
    if test { connects(m, x) } else { x }
}

// "idle, and asked: waiting"
fn begun(m: &Image, x: Sequenced) -> Sequenced
    ensures { result ≡ begun (state_at m.now) x }
{
    let test = (x.sequencer.phase == Phase::Idle) & asked(m, x.enselo);
    entered_if(test, Phase::Waiting, x)
}

// "waiting, not asked, and the quiet ticks below 8: idle"
fn withdrawn(m: &Image, x: Sequenced) -> Sequenced
    ensures { result ≡ withdrawn (state_at m.now) x }
{
    let test = (x.sequencer.phase == Phase::Waiting) & !asked(m, x.enselo) & !(8 <= x.quiet);
    entered_if(test, Phase::Idle, x)
}

// "idle or waiting, and called: answering"
fn answers(m: &Image, x: Sequenced) -> Sequenced
    ensures { result ≡ answers (state_at m.now) x }
{
    let p = x.sequencer.phase;
    let test = ((p == Phase::Idle) | (p == Phase::Waiting)) & called(m);
    entered_if(test, Phase::Answering, x)
}

fn resolved(m: &Image, x: Sequenced) -> Sequenced
    ensures { result ≡ resolved (state_at m.now) x }
{
    let x = uncalled(m, x);
    let x = let_go(m, x);
    let x = forestalled(m, x);
    let x = selected(m, x);
    let x = begun(m, x);
    let x = withdrawn(m, x);
    answers(m, x)
}

// Idle, where it is not.
fn idled(q: Sequencer) -> Sequencer
    ensures { result ≡ cond (is_phase Idle q.phase) q (in_phase Idle q) }
{
    if q.phase == Phase::Idle {
        q
    } else {
        in_phase(Phase::Idle, q)
    }
}

// "RST seen: idle, SELINGO 0, and nothing below."
fn silenced(x: Sequenced) -> Sequenced
    ensures { result ≡ silenced x }
{
    Sequenced {
        sequencer: selingo_cleared(idled(x.sequencer)),
        ..x
    }
}

// What it may change, as it stands.
pub fn sequenced_of(m: &Image) -> Sequenced
    ensures { result ≡ sequenced_of (state_at m.now) }
{
    Sequenced {
        sequencer: sequencer(m),
        enselo: Scsiseq::from_byte(m[SCSISEQ]).enselo,
        atno: atno(m),
        quiet: m[QUIET],
    }
}

fn ticked(m: &Image, tick: bool, before: u8, x: Sequenced) -> Sequenced
    requires { x.sequencer.ticks < counter_size }
    ensures { result ≡ cond tick (tick_in x.sequencer.phase before (state_at m.now) x) x }
{
    if tick { tick_in(m, before, x) } else { x }
}

// The bound on the ticks stands in no ghost field: `Sequencer` is public, and its callers may put any number there.
pub fn sequenced(m: &Image, tick: bool, before: u8) -> Sequenced
    requires { (state_at m.now).sequencer.ticks < counter_size }
    ensures { result ≡ sequenced tick before (state_at m.now) }
{
    let x = sequenced_of(m);
    if rst_seen(m) {
        silenced(x)
    } else {
        let y = ticked(m, tick, before, x);
        resolved(m, y)
    }
}
