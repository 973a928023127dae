// The statuses of selection as they rise and fall, each with its latch.
#![tactic(auto, unfolding(image::specs::Image::state_at, rules::specs::Sequencer::selingo_cleared, rules::specs::Sequencer::selingo_raised, rules::specs::Sequencer::selto_raised, rules::specs::Sequencer::seldo_raised, rules::specs::Sequencer::seldi_raised))]

ghost use Rattle.std.specs.Prelude.{◌≡◌};
ghost use Rattle.rules.specs.Sequencer.{latch_raised, selingo_cleared, selingo_raised, selto_raised, seldo_raised, seldi_raised};
ghost use Rattle.image.specs.Image.{state_at};

use image::layout::{Image, SIMODE0, SIMODE1};
use registers::bytes::Stored;
use rules::chip::{Selection, Sequencer};
use rules::registers::{Simode0, Simode1};

// "A latch sets when its status rises ... while enabled"
fn latch_raised(enable: bool, status: bool, kept: bool) -> bool
    ensures { result ≡ latch_raised enable status kept }
{
    kept | (enable & !status)
}

pub fn selingo_cleared(q: Sequencer) -> Sequencer
    ensures { result ≡ selingo_cleared q }
{
    Sequencer {
        status: Selection {
            selingo: false,
            ..q.status
        },
        ..q
    }
}

// Four raise a status with its latch; they differ in the field, which no parameter can name.
pub fn selingo_raised(m: &Image, q: Sequencer) -> Sequencer
    ensures { result ≡ selingo_raised (state_at m.now).registers q }
{
    let enables = Simode0::from_byte(m[SIMODE0]);
    Sequencer {
        status: Selection {
            selingo: true,
            ..q.status
        },
        latches: Selection {
            selingo: latch_raised(enables.enselingo, q.status.selingo, q.latches.selingo),
            ..q.latches
        },
        ..q
    }
}

pub fn selto_raised(m: &Image, q: Sequencer) -> Sequencer
    ensures { result ≡ selto_raised (state_at m.now).registers q }
{
    let enables = Simode1::from_byte(m[SIMODE1]);
    Sequencer {
        status: Selection {
            selto: true,
            ..q.status
        },
        latches: Selection {
            selto: latch_raised(enables.enseltimo, q.status.selto, q.latches.selto),
            ..q.latches
        },
        ..q
    }
}

// "SELDO rises, SELINGO 0"
pub fn seldo_raised(m: &Image, q: Sequencer) -> Sequencer
    ensures { result ≡ seldo_raised (state_at m.now).registers q }
{
    let enables = Simode0::from_byte(m[SIMODE0]);
    Sequencer {
        status: Selection {
            seldo: true,
            selingo: false,
            ..q.status
        },
        latches: Selection {
            seldo: latch_raised(enables.enseldo, q.status.seldo, q.latches.seldo),
            ..q.latches
        },
        ..q
    }
}

// "345h takes the data that others drive, SELDI becomes 1 (its latch only if it was 0), noted becomes 0"
pub fn seldi_raised(m: &Image, byte: u8, q: Sequencer) -> Sequencer
    ensures { result ≡ seldi_raised (state_at m.now).registers byte q }
{
    let enables = Simode0::from_byte(m[SIMODE0]);
    Sequencer {
        noted: false,
        selid: byte,
        status: Selection {
            seldi: true,
            ..q.status
        },
        latches: Selection {
            seldi: latch_raised(enables.enseldi, q.status.seldi, q.latches.seldi),
            ..q.latches
        },
        ..q
    }
}
