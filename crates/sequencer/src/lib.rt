// Step B whole: the edges of document 01, R-1's sequencer where it has something to do, and the phase.
#![tactic(auto)]

ghost use Rattle.std.specs.Prelude.{◌≡◌};
ghost use Rattle.edges.specs.Since.{beyond_since};
ghost use Rattle.image.specs.Image.{image_of, state_at, IsImage};
ghost use Rattle.sequencer.specs.Since.{dormant, as_asked, still, resting, bus_since};

use crate::placed::sequenced_unless;
use edges::last::Seen;
use edges::since::{edges_before, is_same, phase_since, still_in};
use image::bits::sel_of_others;
use image::bus::rst_seen;
use image::layout::{Image, QUIET, SCSISEQ, SEQUENCER};

pub mod called;
mod changes;
mod placed;
mod raised;
mod resolved;
pub mod skipping;
mod ticking;

// Idle, SELINGO 0, neither ENSELO nor ENRESELI: the sequencer has nothing to do, whatever the lines.
fn is_dormant(m: &Image) -> bool
    ensures { result ≡ dormant m.now }
{
    (m[SEQUENCER] % 16 == 0) & !((m[SCSISEQ] >> 6) % 2 == 1) & !((m[SCSISEQ] >> 4) % 2 == 1)
}

// Waiting where a selection is asked for, else idle.
fn is_as_asked(m: &Image) -> bool
    ensures { result ≡ as_asked m.now }
{
    let asks = ((m[SCSISEQ] >> 6) % 2 == 1) & !((m[SCSISEQ] >> 7) % 2 == 1);
    let p = m[SEQUENCER] % 8;
    if asks { p == 1 } else { p == 0 }
}

// Without a tick it then moves only where others drive SEL or RST is seen.
fn is_still(m: &Image) -> bool
    ensures { result ≡ still m.now }
{
    is_as_asked(m) && !sel_of_others(m) && !rst_seen(m)
}

// Has the sequencer nothing to do in this event?
fn is_resting(m: &Image, ticks: u32) -> bool
    ensures { result ≡ resting m.now ticks }
{
    is_dormant(m) || (ticks == 0 && is_still(m))
}

// The quiet ticks that stood before the event are those after A, which leaves them.
fn bus_moved(m: &mut Image, x: Seen, ticks: u32, rests: bool) -> bool
    requires image { IsImage m.old }
    requires rests_value { rests ≡ resting m.old ticks }
    ensures value { result ≡ beyond_since x (state_at m.old) }
    ensures m_after { m.new ≡ image_of (bus_since x ticks (state_at m.old)) }
{
    let before = m[QUIET];
    let beyond = edges_before(m, x, ticks);
    sequenced_unless(m, rests, 0 < ticks, before);
    phase_since(m, x);
    beyond
}

// B on an image since the bytes that were seen; whether a REQ went beyond the limit. Where nothing seen changed, no tick came and
// the sequencer rests, it is soon over.
pub fn bus_in(m: &mut Image, x: Seen, ticks: u32) -> bool
    requires { IsImage m.old }
    ensures value { result ≡ beyond_since x (state_at m.old) }
    ensures m_after { m.new ≡ image_of (bus_since x ticks (state_at m.old)) }
{
    let rests = is_resting(m, ticks);
    if rests & (ticks == 0) & is_same(m, x) {
        still_in(m);
        return false;
    }
    bus_moved(m, x, ticks, rests)
}
