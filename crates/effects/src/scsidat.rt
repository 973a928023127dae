// 346h, the latch: filled by a write, and accessed in Automatic mode.
ghost use Rattle.std.specs.Prelude.{◌≡◌, ◌&&◌};
ghost use Rattle.rules.specs.Map.{offset_of};
ghost use Rattle.rules.specs.Seen.{automatic, matched, req_seen};
ghost use Rattle.rules.specs.declared.map.Register.TheVariants.{SCSIDAT};
ghost use Rattle.rules.specs.declared.records.Event.TheVariants.{Write, Read};
ghost use Rattle.image.specs.Image.{IsImage, image_of, state_at, registers_at, lines_at};
ghost use Rattle.effects.specs.Acting.{Acts};
ghost use Rattle.effects.specs.Writes.{ack_counted};

use crate::{Acted, Effect};
use datapath::counts::acknowledged;
use image::bits::spiordy;
use image::bus::{automatic, data_seen, io_seen, matched, req_seen};
use image::layout::Image;
use interrupts::status::status_kept_in;
use rules::map::Register;
use writes::storing::stored;

// "if Automatic, matched and REQ is seen"
fn automatic_ack(m: &Image, accessed: bool) -> bool
    ensures { result ≡ (accessed && automatic (registers_at m.now) && matched (state_at m.now) && req_seen (state_at m.now)) }
{
    accessed && automatic(m) && matched(m) && req_seen(m)
}

// An Automatic ACK "turns automatic ACK on, adds one to the counter".
fn ack_by(m: &mut Image, acked: bool)
    requires { IsImage m.old }
    ensures { m.new ≡ image_of (ack_counted acked (state_at m.old)) }
{
    if acked {
        acknowledged(m);
    }
}

// "A write to 346h fills the latch."; with SPIORDY and IO not seen it is an access, which may be acknowledged.
pub fn latch_filled(m: &mut Image, value: u8) -> Acted
    requires { IsImage m.old }
    ensures { Acts (state_at m.old) (Write (offset_of SCSIDAT) value) m.new result }
{
    let accessed = !io_seen(m) & spiordy(m);
    let acked = automatic_ack(m, accessed);
    ack_by(m, acked);
    stored(m, Register::SCSIDAT, value);
    status_kept_in(m, accessed, acked);
    Ok(Effect { value: 0, ticks: 0 })
}

// "An access to 346h (a write with IO not seen, a read with IO seen) with SPIORDY clears it"
pub fn latch_read(m: &mut Image) -> Acted
    requires { IsImage m.old }
    ensures { Acts (state_at m.old) (Read 0x06) m.new result }
{
    let accessed = io_seen(m) & spiordy(m);
    let acked = automatic_ack(m, accessed);
    let value = u32::from(data_seen(m));
    ack_by(m, acked);
    status_kept_in(m, accessed, acked);
    Ok(Effect { value, ticks: 0 })
}
