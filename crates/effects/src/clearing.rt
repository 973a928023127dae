// The three registers that clear by the bits that are written: 34Bh, 34Ch, 34Fh.
ghost use Rattle.rules.specs.Map.{offset_of};
ghost use Rattle.rules.specs.declared.map.Register.TheVariants.{CLRSINT0, CLRSINT1, CLRSERR};
ghost use Rattle.rules.specs.declared.records.Event.TheVariants.{Write};
ghost use Rattle.image.specs.Image.{IsImage, state_at};
ghost use Rattle.effects.specs.Acting.{Acts};

use crate::{Acted, Effect};
use image::layout::Image;
use interrupts::latches::latches_written_in;
use interrupts::status::{status_kept_in, status_written_in};
use rules::map::Register;
use writes::selecting::sequencer_written_in;
use writes::storing::stored;

// "A write to 34Bh clears latches only", but for SELDI on a free bus.
pub fn ready_cleared(m: &mut Image, value: u8) -> Acted
    requires { IsImage m.old }
    ensures { Acts (state_at m.old) (Write (offset_of CLRSINT0) value) m.new result }
{
    sequencer_written_in(m, Register::CLRSINT0, value);
    status_kept_in(m, false, false);
    latches_written_in(m, 0x0B, value);
    Ok(Effect { value: 0, ticks: 0 })
}

// "A write to 34Ch clears the named status bits and latches; bit 6 clears ATN.", bit 7 SELTO.
pub fn interrupts_cleared(m: &mut Image, value: u8) -> Acted
    requires { IsImage m.old }
    ensures { Acts (state_at m.old) (Write (offset_of CLRSINT1) value) m.new result }
{
    sequencer_written_in(m, Register::CLRSINT1, value);
    stored(m, Register::CLRSINT1, value);
    status_written_in(m, 0x0C, value);
    latches_written_in(m, 0x0C, value);
    Ok(Effect { value: 0, ticks: 0 })
}

// "34Fh clears errors."
pub fn errors_cleared(m: &mut Image, value: u8) -> Acted
    requires { IsImage m.old }
    ensures { Acts (state_at m.old) (Write (offset_of CLRSERR) value) m.new result }
{
    status_written_in(m, 0x0F, value);
    Ok(Effect { value: 0, ticks: 0 })
}
