// A register read, by what stands at its offset.
ghost use Rattle.std.specs.Prelude.{◌≡◌, false};
ghost use Rattle.rules.specs.Map.{read_at, offset_of};
ghost use Rattle.rules.specs.Reads.{read_of};
ghost use Rattle.rules.specs.StepA.{status_a};
ghost use Rattle.rules.specs.declared.records.Event.TheVariants.{Read, WordRead};
ghost use Rattle.rules.specs.Changed.{with_status};
ghost use Rattle.image.specs.Image.{IsImage, image_of, state_at};
ghost use Rattle.effects.specs.Acting.{Acts, done_with};

use crate::porting::byte_read;
use crate::scsidat::latch_read;
use crate::{Acted, absent, done};
use image::layout::Image;
use map::register_at;
use reads::status::{id_byte, stack_byte};
use reads::values::read_register;
use rules::map::Register;
use rules::records::Event;
use writes::identity_turned;
use writes::stacking::popped;

// "35Dh uses the place the pointer names, then the pointer goes up one"
fn stack_read(m: &mut Image) -> Acted
    requires { IsImage m.old }
    ensures { Acts (state_at m.old) (Read 0x1D) m.new result }
{
    let value = u16::from(stack_byte(m));
    popped(m);
    done(m, value)
}

// "35Fh gives the 32 ID bytes in turn and starts again"
fn identity_read(m: &mut Image) -> Acted
    requires { IsImage m.old }
    ensures { Acts (state_at m.old) (Read 0x1F) m.new result }
{
    let value = u16::from(id_byte(m));
    identity_turned(m);
    done(m, value)
}

// The value, and "While ENSPCHK is 0, SCSIPERR is held at 0".
fn plain_read(m: &mut Image, register: Register) -> Acted
    requires { IsImage m.old }
    ensures m_after { m.new ≡ image_of (with_status (status_a false false (state_at m.old).registers.sxfrctl1.enspchk (state_at m.old).keptbad (state_at m.old).status WordRead) (state_at m.old)) }
    ensures value { result ≡ done_with (read_of (state_at m.old) register) 0 }
{
    let value = u16::from(read_register(m, register));
    done(m, value)
}

// Four registers change at a read; any other only gives its value.
fn read_found(m: &mut Image, register: Register) -> Acted
    requires image { IsImage m.old }
    requires register_value { read_at (offset_of register) ≡ Some register }
    ensures { Acts (state_at m.old) (Read (offset_of register)) m.new result }
{
    match register {
        Register::DMADATA => byte_read(m),
        Register::SCSIDAT => latch_read(m),
        Register::STACK => stack_read(m),
        Register::ID => identity_read(m),
        _ => plain_read(m, register),
    }
}

// A register read: one look at the map tells what it does.
pub fn read_in(m: &mut Image, offset: u8) -> Acted
    requires { IsImage m.old }
    ensures { Acts (state_at m.old) (Read offset) m.new result }
{
    match register_at(offset, false) {
        Some(register) => read_found(m, register),
        None => Err(absent(Event::Read { offset })),
    }
}
