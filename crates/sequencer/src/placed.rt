// The sequencer's part of B in place.
ghost use Rattle.std.specs.Prelude.{◌≡◌, false, cond, ◌<◌};
ghost use Rattle.rules.specs.Counter.{counter_size};
ghost use Rattle.rules.specs.Registers.{scsiseq_of, scsiseq_byte, scsisig_of};
ghost use Rattle.rules.specs.StepA.{with_atn};
ghost use Rattle.rules.specs.StepB.{scsiseq_with, after_sequencer};
ghost use Rattle.image.specs.Image.{image_of, state_at, IsImage, scsisig_byte};
ghost use Rattle.sequencer.specs.Since.{sequenced_in};

use crate::resolved::sequenced;
use image::bytes::scsisig_byte;
use image::layout::{Image, QUIET, SCSISEQ, SCSISIG};
use image::sequencer::sequencer_put;
use registers::bytes::{Stored, scsisig_of};
use rules::chip::Sequenced;
use rules::registers::{Scsiseq, Scsisig};

// "ENSELO becomes 0"
fn with_enselo(v: u8, enselo: bool) -> u8
    ensures { result ≡ scsiseq_byte (scsiseq_with enselo (scsiseq_of v)) }
{
    let q = Scsiseq {
        enselo,
        ..Scsiseq::from_byte(v)
    };
    q.to_byte()
}

// "343h bit 4 is set"
fn with_atn(v: u8, atno: bool) -> u8
    ensures { result ≡ scsisig_byte (with_atn atno (scsisig_of false v)) }
{
    scsisig_byte(Scsisig {
        atno,
        ..scsisig_of(false, v)
    })
}

fn sequenced_put(m: &mut Image, x: Sequenced)
    requires image { IsImage m.old }
    requires ticks_lt_counter_size { x.sequencer.ticks < counter_size }
    ensures { m.new ≡ image_of (sequenced_in x (state_at m.old)) }
{
    let v = with_enselo(m[SCSISEQ], x.enselo);
    let w = with_atn(m[SCSISIG], x.atno);
    sequencer_put(m, x.sequencer);
    m[SCSISEQ] = v;
    m[SCSISIG] = w;
    m[QUIET] = x.quiet;
}

fn sequenced_in(m: &mut Image, tick: bool, before: u8)
    requires { IsImage m.old }
    ensures { m.new ≡ image_of (after_sequencer tick before (state_at m.old)) }
{
    let x = sequenced(m, tick, before);
    sequenced_put(m, x);
}

// Where it rests, it is not asked.
pub fn sequenced_unless(m: &mut Image, rests: bool, tick: bool, before: u8)
    requires { IsImage m.old }
    ensures { m.new ≡ cond rests m.old (image_of (after_sequencer tick before (state_at m.old))) }
{
    if !rests {
        sequenced_in(m, tick, before);
    }
}
