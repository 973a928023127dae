// B since the bytes that were seen, in its parts: where none of them changed and no tick came, only the quiet ticks can change.
ghost use Rattle.std.specs.Prelude.{◌≡◌, ◌&&◌, eqb, get_or};
ghost use Rattle.rules.specs.StepB.{first_four, after_phase_changes};
ghost use Rattle.image.specs.Image.{image_of, state_at, IsImage};
ghost use Rattle.edges.specs.Since.{seen_of, last_of, five_in_order, beyond_since, rst_of, req_of, mismatched_of};
ghost use Rattle.image.specs.Layout.{control_place, scsiseq_place, scsisig_place, sequencer_place, upper_place};

use crate::found::busy;
use crate::kept::kept_in;
use crate::last::{Before, Seen};
use crate::single::phase_in;
use crate::{edges_in, last_seen};
use image::layout::{Image, LINES_CONTROL, LINES_UPPER, QUIET, SCSISEQ, SCSISIG, SEQUENCER, SIZE};

pub fn seen_in(m: &Image) -> Seen
    ensures { result ≡ seen_of m.now }
{
    Seen {
        control: m[LINES_CONTROL],
        sig: m[SCSISIG],
        upper: m[LINES_UPPER],
        seq: m[SCSISEQ],
        sequencer: m[SEQUENCER],
    }
}

// What the bytes say, read as from an array with nothing else in it.
#[tactic(auto, unfolding(crate::specs::Since::rst_of, crate::specs::Since::req_of, crate::specs::Since::mismatched_of))]
fn before_of(x: Seen) -> Before
    ensures rst_value { result.rst ≡ rst_of x }
    ensures req_value { result.req ≡ req_of x }
    ensures mismatched_value { result.mismatched ≡ mismatched_of x }
{
    let mut a = [0u8; SIZE];
    a[SCSISEQ] = x.seq;
    a[SCSISIG] = x.sig;
    a[LINES_UPPER] = x.upper;
    a[LINES_CONTROL] = x.control;
    a[SEQUENCER] = x.sequencer;
    last_seen(&a)
}

// Is what is seen as it was? A name for the question with which B begins.
pub fn is_same(m: &Image, x: Seen) -> bool
    ensures { result ≡ (eqb (get_or m.now control_place 0) x.control && eqb (get_or m.now scsisig_place 0) x.sig && eqb (get_or m.now upper_place 0) x.upper && eqb (get_or m.now scsiseq_place 0) x.seq && eqb (get_or m.now sequencer_place 0) x.sequencer) }
{
    // The lines first: in a line event it is they that changed.
    m[LINES_CONTROL] == x.control && seen_in(m) == x
}

// The five steps where what is seen is as it was and no tick came: BSY or SEL seen stops the quiet ticks, and nothing else changes.
pub fn still_in(m: &mut Image)
    requires { IsImage m.old }
    ensures { m.new ≡ image_of (five_in_order (last_of (seen_of m.old)) 0 (state_at m.old)) }
{
    if busy(m, false) {
        m[QUIET] = 0;
    }
}

// The four steps before the sequencer: where a mismatch is taken to have been seen, no phase changes.
pub fn edges_before(m: &mut Image, x: Seen, ticks: u32) -> bool
    requires { IsImage m.old }
    ensures value { result ≡ beyond_since x (state_at m.old) }
    ensures m_after { m.new ≡ image_of (first_four (last_of x) ticks (state_at m.old)) }
{
    let was = Before {
        mismatched: true,
        ..before_of(x)
    };
    let bad = kept_in(m, was.req);
    edges_in(m, was, bad, ticks)
}

// "PHASECHG is set when "connected and not matched" is true here and was false at the end of the last event."
pub fn phase_since(m: &mut Image, x: Seen)
    requires { m.old ≡ image_of (state_at m.old) }
    ensures { m.new ≡ image_of (after_phase_changes (last_of x) (state_at m.old)) }
{
    phase_in(m, before_of(x).mismatched);
}
