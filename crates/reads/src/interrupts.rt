// PHASEMIS, INSTAT and IRQ, read off an image.
ghost use Rattle.std.specs.Prelude.{◌≡◌, ◌&&◌};
ghost use Rattle.rules.specs.Interrupts.{phasemis, instat, irq, any_latch, any_selection};
ghost use Rattle.image.specs.Image.{state_at};

use image::bits::{enphasemis, inten, reqinit, swint};
use image::bus::mismatched;
use image::layout::{Image, LATCHES, SELECTION_LATCHES};

// "PHASEMIS is live: connected, not matched, REQINIT.": the lines are looked at only where REQINIT is set.
#[tactic(auto, unfolding(rules::specs::Interrupts::phasemis))]
pub fn phasemis(m: &Image) -> bool
    ensures { result ≡ phasemis (state_at m.now) }
{
    reqinit(m) && mismatched(m)
}

// PHASEMIS "counts while enabled".
fn enabled_phasemis(m: &Image) -> bool
    ensures { result ≡ phasemis (state_at m.now) && (state_at m.now).registers.simode1.enphasemis }
{
    enphasemis(m) && phasemis(m)
}

// The six latches are the low bits of one byte.
#[tactic(auto, using(crate::proofs::LatchByte::any_set), unfolding(image::specs::Image::state_at))]
fn any_latch(m: &Image) -> bool
    ensures { result ≡ any_latch (state_at m.now).latches }
{
    m[LATCHES] % 64 != 0
}

// R-1: the four latches of selection are the low bits of another.
#[tactic(auto, using(crate::proofs::LatchByte::any_selection_set), unfolding(image::specs::Image::state_at))]
fn any_selection(m: &Image) -> bool
    ensures { result ≡ any_selection (state_at m.now).sequencer.latches }
{
    m[SELECTION_LATCHES] % 16 != 0
}

// "INSTAT is any latch, enabled PHASEMIS, or SWINT."
#[tactic(auto, unfolding(rules::specs::Interrupts::instat))]
pub fn instat(m: &Image) -> bool
    ensures { result ≡ instat (state_at m.now) }
{
    any_latch(m) | any_selection(m) | swint(m) || enabled_phasemis(m)
}

// "IRQ is INSTAT and INTEN.": INSTAT is looked at only where INTEN is set.
#[tactic(auto, unfolding(rules::specs::Interrupts::irq))]
pub fn irq(m: &Image) -> bool
    ensures { result ≡ irq (state_at m.now) }
{
    inten(m) && instat(m)
}
