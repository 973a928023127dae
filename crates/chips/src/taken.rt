// The parts of a chip value, each from its places.
ghost use Rattle.std.specs.Prelude.{◌≡◌, ◌+◌, ◌≤◌, take, drop};
ghost use Rattle.rules.specs.Chips.{path_of};
ghost use Rattle.image.specs.Image.{registers_at, lines_at, transfer_at, IsImage};
ghost use Rattle.chips.specs.HeadRuns.{stack_at};
ghost use Rattle.image.specs.Layout.{image_size};

use image::bytes::number_of;
use image::layout::{
    ACK, BRSTCNTRL, COUNTER_HIGH, COUNTER_LOW, COUNTER_MIDDLE, DMACNTRL0, DMACNTRL1, HOST_BYTES,
    HOST_COUNT, Image, LAST, LINES_CONTROL, LINES_DATA, LINES_UPPER, OFFSET, POINTER, SCSI_BYTES,
    SCSI_COUNT, SCSIDAT, SCSIID, SCSIRATE, SCSISEQ, SCSISIG, SIMODE0, SIMODE1, STACK_BYTES,
    SXFRCTL0, SXFRCTL1,
};
use registers::bytes::{Stored, dmacntrl1_of, scsiid_of, scsirate_of, scsisig_of};
use rules::chip::{DataPath, HostFifo, ScsiFifo, Stack};
use rules::records::Lines;
use rules::registers::{Dmacntrl0, Registers, Scsiseq, Simode0, Simode1, Sxfrctl0, Sxfrctl1};

// The lines that others drive.
pub fn lines_at(m: &Image) -> Lines
    ensures { result ≡ lines_at m.now }
{
    Lines {
        byte: m[LINES_DATA],
        parity: (m[LINES_UPPER] >> 1) % 2 == 1,
        rst: (m[LINES_UPPER] >> 0) % 2 == 1,
        cd: (m[LINES_CONTROL] >> 7) % 2 == 1,
        io: (m[LINES_CONTROL] >> 6) % 2 == 1,
        msg: (m[LINES_CONTROL] >> 5) % 2 == 1,
        atn: (m[LINES_CONTROL] >> 4) % 2 == 1,
        sel: (m[LINES_CONTROL] >> 3) % 2 == 1,
        bsy: (m[LINES_CONTROL] >> 2) % 2 == 1,
        req: (m[LINES_CONTROL] >> 1) % 2 == 1,
        ack: (m[LINES_CONTROL] >> 0) % 2 == 1,
    }
}

// 340h to 356h as written.
pub fn registers_at(m: &Image) -> Registers
    ensures { result ≡ registers_at m.now }
{
    Registers {
        scsiseq: Scsiseq::from_byte(m[SCSISEQ]),
        sxfrctl0: Sxfrctl0::from_byte(m[SXFRCTL0]),
        sxfrctl1: Sxfrctl1::from_byte(m[SXFRCTL1]),
        scsisig: scsisig_of(false, m[SCSISIG]),
        scsirate: scsirate_of(m[SCSIRATE]),
        scsiid: scsiid_of(m[SCSIID]),
        scsidat: m[SCSIDAT],
        simode0: Simode0::from_byte(m[SIMODE0]),
        simode1: Simode1::from_byte(m[SIMODE1]),
        dmacntrl0: Dmacntrl0::from_byte(m[DMACNTRL0]),
        dmacntrl1: dmacntrl1_of(m[DMACNTRL1]),
        brstcntrl: m[BRSTCNTRL],
    }
}

// N bytes from a place on.
fn bytes_at<const N: usize>(m: &Image, at: usize) -> [u8; N]
    requires { at + N ≤ image_size }
    ensures { result ≡ take N (drop at m.now) }
{
    let mut out = [0u8; N];
    out.copy_from_slice(&m[at..at + N]);
    out
}

// The stack's bytes and the pointer.
pub fn stack_at(m: &Image) -> Stack
    ensures { result ≡ stack_at m.now }
{
    Stack {
        bytes: bytes_at(m, STACK_BYTES),
        pointer: m[POINTER],
    }
}

// The data path, its FIFOs in their one form.
#[tactic(auto, unfolding(rules::specs::Chips::path_of), using(crate::proofs::FifosAsChip::fifos_held))]
pub fn path_at(m: &Image) -> DataPath
    requires { IsImage m.now }
    ensures { result ≡ path_of (transfer_at m.now) }
{
    DataPath {
        host: HostFifo {
            bytes: bytes_at(m, HOST_BYTES),
            count: usize::from(m[HOST_COUNT]),
        },
        scsi: ScsiFifo {
            bytes: bytes_at(m, SCSI_BYTES),
            count: usize::from(m[SCSI_COUNT]),
        },
        counter: number_of(m[COUNTER_LOW], m[COUNTER_MIDDLE], m[COUNTER_HIGH]),
        offset: m[OFFSET],
        ack: m[ACK] == 1,
        last: m[LAST],
    }
}
