// What A stores in the registers, the stack and the turn of the ID bytes, in place.
#![tactic(auto)]

ghost use Rattle.std.specs.Prelude.{◌≡◌, ◌+◌, ◌%◌};
ghost use Rattle.rules.specs.Changed.{with_identity};
ghost use Rattle.image.specs.Image.{IsImage, image_of, state_at};

use image::layout::{IDENTITY, Image};

pub mod selecting;
pub mod stacking;
pub mod storing;

// "35Fh gives the 32 ID bytes in turn and starts again"
pub fn identity_turned(m: &mut Image)
    requires { IsImage m.old }
    ensures { m.new ≡ image_of (with_identity (((state_at m.old).identity + 1) % 32) (state_at m.old)) }
{
    m[IDENTITY] = (m[IDENTITY] + 1) % 32;
}
