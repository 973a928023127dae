// Line events, "lines others drive", and ticks. The eighteen bits of lines stand in the record as they stand in the image.
ghost use Rattle.std.specs.Prelude.{◌≡◌, ◌<◌};
ghost use Rattle.rules.specs.Records.{lines_of, payload_of};
ghost use Rattle.rules.specs.declared.records.Event.TheVariants.{Drive, Ticks};
ghost use Rattle.rules.specs.Changed.{with_lines};
ghost use Rattle.image.specs.Image.{IsImage, image_of, state_at};
ghost use Rattle.effects.specs.Acting.{Acts};

use crate::{Acted, Effect, done};
use image::layout::{Image, LINES_CONTROL, LINES_DATA, LINES_UPPER};
use interrupts::status::status_kept_in;

// Data from bit 17 on, then parity and RST, then the lines in the order of 343h.
fn lines_put(m: &mut Image, high: u8, middle: u8, low: u8)
    requires { IsImage m.old }
    ensures { m.new ≡ image_of (with_lines (lines_of (payload_of high middle low)) (state_at m.old)) }
{
    m[LINES_DATA] = ((high & 3) << 6) | (middle >> 2);
    m[LINES_UPPER] = middle & 3;
    m[LINES_CONTROL] = low;
}

// The three bytes after the kind.
pub fn drive_in(m: &mut Image, high: u8, middle: u8, low: u8) -> Acted
    requires { IsImage m.old }
    ensures { Acts (state_at m.old) (Drive (lines_of (payload_of high middle low))) m.new result }
{
    lines_put(m, high, middle, low);
    done(m, 0)
}

// Ticks: B counts them.
pub fn ticked(m: &mut Image, n: u32) -> Acted
    requires image { IsImage m.old }
    requires n_bound { n < 16777216 }
    ensures { Acts (state_at m.old) (Ticks n) m.new result }
{
    status_kept_in(m, false, false);
    Ok(Effect { value: 0, ticks: n })
}
