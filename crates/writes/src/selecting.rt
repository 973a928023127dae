// What a write changes in the sequencer of R-1. The image still holds the registers as they stood before the write.
ghost use Rattle.std.specs.Prelude.{◌≡◌};
ghost use Rattle.rules.specs.Changed.{with_sequencer};
ghost use Rattle.rules.specs.Map.{offset_of};
ghost use Rattle.rules.specs.Sequencer.{latch_enabled};
ghost use Rattle.rules.specs.StepA.{noted_a};
ghost use Rattle.rules.specs.declared.map.Register.TheVariants.{SCSISEQ, CLRSINT0, CLRSINT1, SIMODE0, SIMODE1};
ghost use Rattle.rules.specs.declared.records.Event.TheVariants.{Write};
ghost use Rattle.image.specs.Image.{IsImage, image_of, state_at};
ghost use Rattle.writes.specs.SequencerWritten.{sequencer_written, gives_up_by, gave_up};
ghost use Rattle.writes.specs.WrittenRegister.{Written};

use image::layout::{Image, QUIET, SXFRCTL1};
use image::sequencer::{phase, sequencer, sequencer_put};
use rules::chip::{Phase, Selection, Sequencer};
use rules::map::Register;

// "a write to 340h that leaves it not asked, while holding, or while selecting with ENSTIMER 0"
fn gives_up(m: &Image, value: u8) -> bool
    ensures { result ≡ gives_up_by (state_at m.now) value }
{
    let p = phase(m);
    let asked = ((value >> 6) % 2 == 1) & !((value >> 7) % 2 == 1);
    let enstimer = (m[SXFRCTL1] >> 2) % 2 == 1;
    !asked & ((p == Phase::Holding) | ((p == Phase::Selecting) & !enstimer))
}

// "makes the sequencer idle, and SELINGO 0 if it was selecting"
fn gave_up(q: Sequencer) -> Sequencer
    ensures { result ≡ gave_up q }
{
    let selingo = (q.phase != Phase::Selecting) & q.status.selingo;
    Sequencer {
        phase: Phase::Idle,
        ticks: 0,
        status: Selection {
            selingo,
            ..q.status
        },
        ..q
    }
}

// 340h: "the processor gives up".
fn control_written(m: &Image, value: u8) -> Sequencer
    ensures { result ≡ sequencer_written SCSISEQ (state_at m.now) value }
{
    let q = sequencer(m);
    if gives_up(m, value) {
        return gave_up(q);
    }
    q
}

// A write of 34Bh bit 5 "while SELDI is 1 and the quiet ticks stand at 8 clears SELDI at once; else it notes".
fn noted(q: Sequencer, quiet: u8, value: u8) -> bool
    ensures { result ≡ noted_a quiet q (Write (offset_of CLRSINT0) value) }
{
    let clears = (value >> 5) % 2 == 1;
    if clears {
        return !(quiet >= 8) & q.status.seldi;
    }
    q.noted
}

// 34Bh: "bits 6, 5, 4 clear the latches only", but for SELDI on a free bus.
fn latches_cleared(m: &Image, value: u8) -> Sequencer
    ensures { result ≡ sequencer_written CLRSINT0 (state_at m.now) value }
{
    let q = sequencer(m);
    let quiet = m[QUIET];
    Sequencer {
        noted: noted(q, quiet, value),
        status: Selection {
            seldi: !(((value >> 5) % 2 == 1) & (quiet >= 8)) & q.status.seldi,
            ..q.status
        },
        latches: Selection {
            seldo: !((value >> 6) % 2 == 1) & q.latches.seldo,
            seldi: !((value >> 5) % 2 == 1) & q.latches.seldi,
            selingo: !((value >> 4) % 2 == 1) & q.latches.selingo,
            ..q.latches
        },
        ..q
    }
}

// "34Ch bit 7 clears SELTO, status and latch."
fn timeout_cleared(m: &Image, value: u8) -> Sequencer
    ensures { result ≡ sequencer_written CLRSINT1 (state_at m.now) value }
{
    let q = sequencer(m);
    Sequencer {
        status: Selection {
            selto: !((value >> 7) % 2 == 1) & q.status.selto,
            ..q.status
        },
        latches: Selection {
            selto: !((value >> 7) % 2 == 1) & q.latches.selto,
            ..q.latches
        },
        ..q
    }
}

// A latch sets "when the enable rises while status is 1".
fn latch_enabled(before: bool, enable: bool, status: bool, kept: bool) -> bool
    ensures { result ≡ latch_enabled before enable status kept }
{
    kept | (enable & (status & !before))
}

// 350h enables the latches of SELDO, SELDI and SELINGO.
fn selection_enabled(m: &Image, value: u8) -> Sequencer
    ensures { result ≡ sequencer_written SIMODE0 (state_at m.now) value }
{
    let q = sequencer(m);
    let before = m[image::layout::SIMODE0];
    Sequencer {
        latches: Selection {
            seldo: latch_enabled(
                (before >> 6) % 2 == 1,
                (value >> 6) % 2 == 1,
                q.status.seldo,
                q.latches.seldo,
            ),
            seldi: latch_enabled(
                (before >> 5) % 2 == 1,
                (value >> 5) % 2 == 1,
                q.status.seldi,
                q.latches.seldi,
            ),
            selingo: latch_enabled(
                (before >> 4) % 2 == 1,
                (value >> 4) % 2 == 1,
                q.status.selingo,
                q.latches.selingo,
            ),
            ..q.latches
        },
        ..q
    }
}

// 351h enables that of SELTO.
fn timeout_enabled(m: &Image, value: u8) -> Sequencer
    ensures { result ≡ sequencer_written SIMODE1 (state_at m.now) value }
{
    let q = sequencer(m);
    let before = m[image::layout::SIMODE1];
    Sequencer {
        latches: Selection {
            selto: latch_enabled(
                (before >> 7) % 2 == 1,
                (value >> 7) % 2 == 1,
                q.status.selto,
                q.latches.selto,
            ),
            ..q.latches
        },
        ..q
    }
}

// Five registers change the sequencer; a write of any other leaves it.
fn sequencer_written(m: &Image, register: Register, value: u8) -> Sequencer
    requires { Written register }
    ensures { result ≡ sequencer_written register (state_at m.now) value }
{
    match register {
        Register::SCSISEQ => control_written(m, value),
        Register::CLRSINT0 => latches_cleared(m, value),
        Register::CLRSINT1 => timeout_cleared(m, value),
        Register::SIMODE0 => selection_enabled(m, value),
        Register::SIMODE1 => timeout_enabled(m, value),
        _ => sequencer(m),
    }
}

// The sequencer by a register write, before the register is stored.
pub fn sequencer_written_in(m: &mut Image, register: Register, value: u8)
    requires image { IsImage m.old }
    requires written { Written register }
    ensures { m.new ≡ image_of (with_sequencer (sequencer_written register (state_at m.old) value) (state_at m.old)) }
{
    let q = sequencer_written(m, register, value);
    sequencer_put(m, q);
}
