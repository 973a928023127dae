// D, what follows settling, and the latches.
ghost use Rattle.std.specs.Prelude.{◌≡◌};
ghost use Rattle.rules.specs.Registers.{simode0_of, simode1_of};
ghost use Rattle.rules.specs.Seen.{path};
ghost use Rattle.image.specs.Image.{IsImage, image_of, state_at, status_of};
ghost use Rattle.event.specs.Closing.{raised_by, closed_by};

use image::layout::{Image, STATUS};
use interrupts::latches::{Enables, latched_in};
use interrupts::status::{fallen_in, raised_in};

// With a path the mode is Normal, and neither SPIORDY nor FWERR rises.
fn raised_without(m: &mut Image, way: bool)
    requires image { IsImage m.old }
    requires way_value { way ≡ path (state_at m.old).registers }
    ensures { m.new ≡ image_of (raised_by (state_at m.old)) }
{
    if !way {
        raised_in(m);
    }
}

// before has 350h and 351h before the event, status is the status byte after A; way tells whether there is a path.
pub fn closed_in(m: &mut Image, before: Enables, status: u8, acks: u8, way: bool)
    requires image { IsImage m.old }
    requires way_value { way ≡ path (state_at m.old).registers }
    ensures { m.new ≡ image_of (closed_by (simode0_of before.simode0) (simode1_of before.simode1) (status_of status) acks (state_at m.old)) }
{
    raised_without(m, way);
    let raised = m[STATUS];
    fallen_in(m, acks);
    latched_in(m, before, status, raised);
}
