// A chip value into the bytes of one array and out of them.
#![tactic(auto)]

mod put;
mod taken;

ghost use Rattle.std.specs.Prelude.{◌≡◌};
ghost use Rattle.rules.specs.Chips.{chip_of};
ghost use Rattle.rules.specs.Ranges.{Tidy};
ghost use Rattle.image.specs.Image.{state_at, IsImage};
ghost use Rattle.chips.specs.HeadRuns.{Stored};

use crate::put::{bytes_put, put_counts, put_flags, put_numbers, put_registers};
use crate::taken::{lines_at, path_at, registers_at, stack_at};
use image::bytes::{latches_of, status_of};
use image::layout::{
    HOST_BYTES, IDENTITY, Image, KEPT_PARITY, LATCHES, QUIET, SCSI_BYTES, STACK_BYTES, STATUS,
};
use image::sequencer::{sequencer, sequencer_placed};
use rules::chip::Chip;

// A chip value into the array, whatever stood there.
pub fn store(c: Chip, m: &mut Image)
    requires { Tidy c }
    ensures { Stored c m.new }
{
    put_registers(c.registers, m);
    put_flags(c.status, c.latches, c.lines, m);
    put_numbers(&c, m);
    sequencer_placed(m, c.sequencer);
    put_counts(&c.transfer, m);
    bytes_put(c.transfer.scsi.bytes, SCSI_BYTES, m);
    bytes_put(c.stack.bytes, STACK_BYTES, m);
    bytes_put(c.transfer.host.bytes, HOST_BYTES, m);
}

// The chip value that an image stands for.
#[tactic(auto, unfolding(rules::specs::Chips::chip_of, image::specs::Image::state_at))]
pub fn load(m: &Image) -> Chip
    requires { IsImage m.now }
    ensures { result ≡ chip_of (state_at m.now) }
{
    Chip {
        lines: lines_at(m),
        registers: registers_at(m),
        transfer: path_at(m),
        status: status_of(m[STATUS]),
        latches: latches_of(m[LATCHES]),
        stack: stack_at(m),
        keptbad: m[KEPT_PARITY] == 1,
        quiet: m[QUIET],
        identity: m[IDENTITY],
        sequencer: sequencer(m),
    }
}
