// The parts of a chip value, each into its places.
ghost use Rattle.std.specs.Prelude.{◌≡◌, ◌+◌, ◌<◌, ◌≤◌};
ghost use Rattle.std.proofs.lemmas.List.Edits.{sets};
ghost use Rattle.rules.specs.Ranges.{RegistersFit, RegistersBytes};
ghost use Rattle.chips.specs.HeadRuns.{registers_bytes, flags_bytes, numbers_bytes, counts_bytes, Placed};
ghost use Rattle.image.specs.Layout.{image_size, offset_place, scsi_count_place, scsiseq_place, status_place};

use image::bytes::{control_byte, latches_byte, scsisig_byte, status_byte, upper_byte};
use image::layout::{
    ACK, BRSTCNTRL, COUNTER_HIGH, COUNTER_LOW, COUNTER_MIDDLE, DMACNTRL0, DMACNTRL1, HOST_COUNT,
    IDENTITY, Image, KEPT_PARITY, LAST, LATCHES, LINES_CONTROL, LINES_DATA, LINES_UPPER, OFFSET,
    POINTER, QUIET, SCSI_COUNT, SCSIDAT, SCSIID, SCSIRATE, SCSISEQ, SCSISIG, SIMODE0, SIMODE1,
    STATUS, SXFRCTL0, SXFRCTL1,
};
use registers::bytes::{Stored, dmacntrl1_byte};
use rules::chip::{Chip, DataPath, Latches, Status};
use rules::records::Lines;
use rules::registers::Registers;

// 340h to 356h as written.
pub fn put_registers(r: Registers, m: &mut Image)
    requires { RegistersFit r }
    ensures { (m.new ≡ sets m.old scsiseq_place (registers_bytes r)) × RegistersBytes r }
{
    m[SCSISEQ] = r.scsiseq.to_byte();
    m[SXFRCTL0] = r.sxfrctl0.to_byte();
    m[SXFRCTL1] = r.sxfrctl1.to_byte();
    m[SCSISIG] = scsisig_byte(r.scsisig);
    m[SCSIRATE] = r.scsirate.sxfr * 16 + r.scsirate.sofs;
    m[SCSIID] = r.scsiid.oid * 16 + r.scsiid.tid;
    m[SCSIDAT] = r.scsidat;
    m[SIMODE0] = r.simode0.to_byte();
    m[SIMODE1] = r.simode1.to_byte();
    m[DMACNTRL0] = r.dmacntrl0.to_byte();
    m[DMACNTRL1] = dmacntrl1_byte(r.dmacntrl1, 0);
    m[BRSTCNTRL] = r.brstcntrl;
}

// Status, latches and the lines that others drive.
pub fn put_flags(t: Status, k: Latches, l: Lines, m: &mut Image)
    ensures { (m.new ≡ sets m.old status_place (flags_bytes t k l)) × (l.byte < 256) }
{
    m[STATUS] = status_byte(t);
    m[LATCHES] = latches_byte(k);
    m[LINES_DATA] = l.byte;
    m[LINES_UPPER] = upper_byte(l);
    m[LINES_CONTROL] = control_byte(l);
}

// What is kept as a number below 256.
pub fn put_numbers(c: &Chip, m: &mut Image)
    ensures { m.new ≡ sets m.old offset_place (numbers_bytes c.now) }
{
    m[OFFSET] = c.transfer.offset;
    m[ACK] = u8::from(c.transfer.ack);
    m[LAST] = c.transfer.last;
    m[QUIET] = c.quiet;
    m[IDENTITY] = c.identity;
    m[POINTER] = c.stack.pointer;
    m[KEPT_PARITY] = u8::from(c.keptbad);
}

// The counts of the FIFOs, and the counter's three bytes; by `as`, since what is required says that the counts fit.
pub fn put_counts(path: &DataPath, m: &mut Image)
    requires { (path.now.scsi.count < 256) × (path.now.host.count < 256) }
    ensures { m.new ≡ sets m.old scsi_count_place (counts_bytes path.now) }
{
    let [_, high, middle, low] = path.counter.to_be_bytes();
    m[SCSI_COUNT] = path.scsi.count as u8;
    m[HOST_COUNT] = path.host.count as u8;
    m[COUNTER_HIGH] = high;
    m[COUNTER_MIDDLE] = middle;
    m[COUNTER_LOW] = low;
}

// The bytes of the stack or of a FIFO from their place on.
pub fn bytes_put<const N: usize>(b: [u8; N], at: usize, m: &mut Image)
    requires { at + N ≤ image_size }
    ensures { Placed m.old at b.entry N m.new }
{
    let from = &b[..];
    m[at..at + N].copy_from_slice(from);
}
