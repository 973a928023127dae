// What an event looks back at.
ghost use Rattle.std.specs.Prelude.{◌≡◌, get_or};
ghost use Rattle.edges.specs.Since.{seen_of};
ghost use Rattle.image.specs.Image.{state_at};
ghost use Rattle.image.specs.Layout.{simode0_place, simode1_place};
ghost use Rattle.event.specs.Opening.{Recalls};

use edges::last::Seen;
use edges::since::seen_in;
use image::layout::Image;
use interrupts::latches::{Enables, enables_in};

// What was seen before the event, and 350h and 351h.
#[derive(Clone, Copy)]
pub struct Before {
    pub seen: Seen,
    pub enables: Enables,
}

pub fn before_in(m: &Image) -> Before
    ensures seen { result.seen ≡ seen_of m.now }
    ensures simode0 { result.enables.simode0 ≡ get_or m.now simode0_place 0 }
    ensures simode1 { result.enables.simode1 ≡ get_or m.now simode1_place 0 }
    ensures recalls { Recalls (state_at m.now) result }
{
    Before {
        seen: seen_in(m),
        enables: enables_in(m),
    }
}
