// A register write, by what stands at its offset.
ghost use Rattle.std.specs.Prelude.{◌≡◌, ◌+◌, ◌<◌};
ghost use Rattle.rules.specs.Map.{offset_of};
ghost use Rattle.rules.specs.declared.map.Register.TheVariants.{SXFRCTL0, STCNT0, SCSITEST, DMACNTRL0, DMACNTRL1, STACK, TEST};
ghost use Rattle.rules.specs.declared.records.Event.TheVariants.{Write};
ghost use Rattle.image.specs.Image.{IsImage, image_of, state_at};
ghost use Rattle.writes.specs.WrittenRegister.{Written};
ghost use Rattle.effects.specs.Acting.{Acts};
ghost use Rattle.effects.specs.Writes.{Plain, Selects, channel_cleared, counter_cleared, host_cleared};

use crate::clearing::{errors_cleared, interrupts_cleared, ready_cleared};
use crate::porting::byte_written;
use crate::scsidat::latch_filled;
use crate::{Acted, absent, check, done};
use datapath::counts::{counter_byte_written, counter_zeroed};
use datapath::host::host_emptied;
use datapath::scsi::channel_cleared;
use image::layout::Image;
use rules::codes::Code;
use rules::map::Register;
use rules::records::Event;
use writes::selecting::sequencer_written_in;
use writes::stacking::{pointed, pushed};
use writes::storing::stored;

// A register that is only stored.
fn plain_written(m: &mut Image, register: Register, value: u8) -> Acted
    requires image { IsImage m.old }
    requires plain { Plain register }
    ensures { Acts (state_at m.old) (Write (offset_of register) value) m.new result }
{
    stored(m, register, value);
    done(m, 0)
}

// R-1: 340h, 350h and 351h. The sequencer comes first, since a latch looks at the enables before the write.
fn selection_written(m: &mut Image, register: Register, value: u8) -> Acted
    requires image { IsImage m.old }
    requires selects { Selects register }
    ensures { Acts (state_at m.old) (Write (offset_of register) value) m.new result }
{
    sequencer_written_in(m, register, value);
    stored(m, register, value);
    done(m, 0)
}

// 348h to 34Ah: "The counter writes as 24 bits, 348h lowest"; its byte k, from the lowest.
fn counter_written(m: &mut Image, k: usize, value: u8) -> Acted
    requires image { IsImage m.old }
    requires k_bound { k < 3 }
    ensures { Acts (state_at m.old) (Write (offset_of STCNT0 + k) value) m.new result }
{
    counter_byte_written(m, k, value);
    done(m, 0)
}

// "CLRCH empties the SCSI FIFO and zeroes the offset". One function for each bit that clears: each contract names another part of the state.
fn channel_by(m: &mut Image, value: u8)
    requires { IsImage m.old }
    ensures { m.new ≡ image_of (channel_cleared (state_at m.old) value) }
{
    let clears = (value >> 1) % 2 == 1;
    if clears {
        channel_cleared(m);
    }
}

// "CLRSTCNT zeroes the counter"
fn counter_by(m: &mut Image, value: u8)
    requires { IsImage m.old }
    ensures { m.new ≡ image_of (counter_cleared (state_at m.old) value) }
{
    let clears = (value >> 4) % 2 == 1;
    if clears {
        counter_zeroed(m);
    }
}

// 341h: the bits that clear, then what is stored.
fn transfer_control(m: &mut Image, value: u8) -> Acted
    requires { IsImage m.old }
    ensures { Acts (state_at m.old) (Write (offset_of SXFRCTL0) value) m.new result }
{
    channel_by(m, value);
    counter_by(m, value);
    stored(m, Register::SXFRCTL0, value);
    done(m, 0)
}

// "RSTFIFO empties the host FIFO"
fn host_by(m: &mut Image, value: u8)
    requires { IsImage m.old }
    ensures { m.new ≡ image_of (host_cleared (state_at m.old) value) }
{
    let resets = (value >> 1) % 2 == 1;
    if resets {
        host_emptied(m);
    }
}

// 352h: the bit that clears, then what is stored.
fn dma_control(m: &mut Image, value: u8) -> Acted
    requires { IsImage m.old }
    ensures { Acts (state_at m.old) (Write (offset_of DMACNTRL0) value) m.new result }
{
    host_by(m, value);
    stored(m, Register::DMACNTRL0, value);
    done(m, 0)
}

// 353h: "PWRDWN 7, ENSTK32 6, pointer 4-0." The pointer stands with the stack.
fn stack_control(m: &mut Image, value: u8) -> Acted
    requires { IsImage m.old }
    ensures { Acts (state_at m.old) (Write (offset_of DMACNTRL1) value) m.new result }
{
    pointed(m, value);
    stored(m, Register::DMACNTRL1, value);
    done(m, 0)
}

// 35Dh: "uses the place the pointer names, then the pointer goes up one".
fn stack_pushed(m: &mut Image, value: u8) -> Acted
    requires { IsImage m.old }
    ensures { Acts (state_at m.old) (Write (offset_of STACK) value) m.new result }
{
    pushed(m, value);
    done(m, 0)
}

// 34Eh and 35Eh take 0 only.
fn test_written(m: &mut Image, value: u8) -> Acted
    requires { IsImage m.old }
    ensures { (Acts (state_at m.old) (Write (offset_of SCSITEST) value) m.new result) × (Acts (state_at m.old) (Write (offset_of TEST) value) m.new result) }
{
    let e = Event::Write {
        offset: 0x0E,
        value,
    };
    check(value != 0, Code::TestValue, e)?;
    done(m, 0)
}

// What a write finds: one arm for each register that can be written.
fn write_found(m: &mut Image, register: Register, value: u8) -> Acted
    requires image { IsImage m.old }
    requires written { Written register }
    ensures { Acts (state_at m.old) (Write (offset_of register) value) m.new result }
{
    match register {
        Register::SCSISEQ => selection_written(m, Register::SCSISEQ, value),
        Register::SXFRCTL0 => transfer_control(m, value),
        Register::SXFRCTL1 => plain_written(m, Register::SXFRCTL1, value),
        Register::SCSISIGO => plain_written(m, Register::SCSISIGO, value),
        Register::SCSIRATE => plain_written(m, Register::SCSIRATE, value),
        Register::SCSIID => plain_written(m, Register::SCSIID, value),
        Register::SCSIDAT => latch_filled(m, value),
        Register::STCNT0 => counter_written(m, 0, value),
        Register::STCNT1 => counter_written(m, 1, value),
        Register::STCNT2 => counter_written(m, 2, value),
        Register::CLRSINT0 => ready_cleared(m, value),
        Register::CLRSINT1 => interrupts_cleared(m, value),
        Register::SCSITEST => test_written(m, value),
        Register::CLRSERR => errors_cleared(m, value),
        Register::SIMODE0 => selection_written(m, Register::SIMODE0, value),
        Register::SIMODE1 => selection_written(m, Register::SIMODE1, value),
        Register::DMACNTRL0 => dma_control(m, value),
        Register::DMACNTRL1 => stack_control(m, value),
        Register::DMADATA => byte_written(m, value),
        Register::BRSTCNTRL => plain_written(m, Register::BRSTCNTRL, value),
        Register::STACK => stack_pushed(m, value),
        Register::TEST => test_written(m, value),
        _ => unreachable!(),
    }
}

// A register write, by what stands at its offset.
pub fn write_in(m: &mut Image, offset: u8, value: u8) -> Acted
    requires { IsImage m.old }
    ensures { Acts (state_at m.old) (Write offset value) m.new result }
{
    match map::register_at(offset, true) {
        Some(register) => write_found(m, register, value),
        None => Err(absent(Event::Write { offset, value })),
    }
}
