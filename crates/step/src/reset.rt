// The chip after power reset, and any chip value in its one form.
ghost use Rattle.std.specs.Prelude.{◌≡◌};
ghost use Rattle.rules.specs.State.{released, registers_reset, status_reset, latches_reset, sequencer_reset, power_reset};
ghost use Rattle.rules.specs.Chips.{path_of, registers_view, sequencer_view, chip_of};
ghost use Rattle.step.specs.Entry.{PathEntered, StackEntered, Entered};

use rules::chip::{Chip, DataPath, Latches, Sequencer, Stack, Status};
use rules::records::Lines;
use rules::registers::{Registers, Scsiid, Scsirate};

fn lines_released() -> Lines
    ensures { result ≡ released }
{
    Lines::default()
}

// Every register as if 0 were written. Each part by a function of its own: together the proof finds none of them.
fn registers_reset() -> Registers
    ensures { result ≡ registers_reset }
{
    Registers::default()
}

fn status_reset() -> Status
    ensures { result ≡ status_reset }
{
    Status::default()
}

fn latches_reset() -> Latches
    ensures { result ≡ latches_reset }
{
    Latches::default()
}

// R-1: "All is 0, released and idle after power reset."
fn sequencer_reset() -> Sequencer
    ensures { result ≡ sequencer_reset }
{
    Sequencer::default()
}

fn path_reset() -> DataPath
    ensures { result ≡ path_of power_reset.transfer }
{
    DataPath {
        host: fifos::empty(),
        scsi: fifos::empty(),
        counter: 0,
        offset: 0,
        ack: false,
        last: 0,
    }
}

// "Power reset: everything 0 and empty, all lines released, those others drive included."
pub fn power_reset() -> Chip
    ensures { result ≡ chip_of power_reset }
{
    Chip {
        lines: lines_released(),
        registers: registers_reset(),
        transfer: path_reset(),
        status: status_reset(),
        latches: latches_reset(),
        stack: Stack {
            bytes: [0u8; 32],
            pointer: 0,
        },
        keptbad: false,
        quiet: 0,
        identity: 0,
        sequencer: sequencer_reset(),
    }
}

fn path_tidied(p: DataPath) -> DataPath
    ensures { PathEntered p result }
{
    DataPath {
        host: fifos::tidied(p.host),
        scsi: fifos::tidied(p.scsi),
        counter: p.counter % 16777216,
        offset: p.offset.min(8),
        ..p
    }
}

fn registers_tidied(r: Registers) -> Registers
    ensures { result ≡ registers_view r }
{
    Registers {
        scsirate: Scsirate {
            sxfr: r.scsirate.sxfr % 8,
            sofs: r.scsirate.sofs % 16,
        },
        scsiid: Scsiid {
            oid: r.scsiid.oid % 8,
            tid: r.scsiid.tid % 8,
        },
        ..r
    }
}

fn stack_tidied(k: Stack) -> Stack
    ensures { StackEntered k result }
{
    Stack {
        pointer: k.pointer % 32,
        ..k
    }
}

// The ticks are held in 24 bits.
fn sequencer_tidied(q: Sequencer) -> Sequencer
    ensures { result ≡ sequencer_view q }
{
    Sequencer {
        ticks: q.ticks % 16777216,
        ..q
    }
}

// Any chip value in the one form that functions return: counts cut to the size, numbers brought into range.
pub fn tidied(c: Chip) -> Chip
    ensures { Entered c result }
{
    Chip {
        registers: registers_tidied(c.registers),
        transfer: path_tidied(c.transfer),
        stack: stack_tidied(c.stack),
        quiet: c.quiet.min(8),
        identity: c.identity % 32,
        sequencer: sequencer_tidied(c.sequencer),
        ..c
    }
}
