// "the sequencer has nothing to do without a tick"
ghost use Rattle.std.specs.Prelude.{◌≡◌};
ghost use Rattle.rules.specs.Sequencer.{selection_asked};
ghost use Rattle.image.specs.Image.{state_at, registers_at};
ghost use Rattle.saved.specs.Tests.{calm_in, calm};

use image::bits::{bsy_of_others, sel_of_others};
use image::bus::rst_seen;
use image::layout::{Image, QUIET, SCSISEQ, SEQUENCER};
use image::sequencer::phase;
use rules::chip::Phase;
use sequencer::called::{asked, called};

// "Asked: ENSELO set and TEMODEO clear (340h)."
#[tactic(auto, unfolding(rules::specs::Sequencer::selection_asked, image::specs::Image::state_at))]
fn is_asked(m: &Image) -> bool
    ensures { result ≡ selection_asked (registers_at m.now) }
{
    asked(m, (m[SCSISEQ] >> 6) % 2 == 1)
}

// By the phase: what would end it, or begin another, does not hold.
#[tactic(auto, unfolding(crate::specs::Tests::calm_in, image::specs::Image::state_at))]
fn calm_in(m: &Image, p: Phase) -> bool
    ensures { result ≡ calm_in p (state_at m.now) }
{
    match p {
        Phase::Idle => !is_asked(m) & !called(m),
        Phase::Waiting => (is_asked(m) | (8 <= m[QUIET])) & !called(m),
        Phase::Arbitrating => !sel_of_others(m),
        Phase::Clearing => true,
        Phase::Selecting | Phase::Holding => !bsy_of_others(m),
        Phase::Answering => called(m),
        Phase::Answered => sel_of_others(m),
    }
}

// "RST seen: idle, SELINGO 0, and nothing below."
#[tactic(auto, unfolding(crate::specs::Tests::calm))]
pub fn is_calm(m: &Image) -> bool
    ensures { result ≡ calm (state_at m.now) }
{
    let p = phase(m);
    if rst_seen(m) {
        (p == Phase::Idle) & !((m[SEQUENCER] >> 3) % 2 == 1)
    } else {
        calm_in(m, p)
    }
}
