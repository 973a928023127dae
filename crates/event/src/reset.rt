// Power reset in place.
ghost use Rattle.std.specs.Prelude.{◌≡◌};
ghost use Rattle.rules.specs.State.{power_reset};
ghost use Rattle.image.specs.Image.{image_of};

use image::layout::{Image, SIZE};

// "everything 0 and empty": every byte of the image is 0.
pub fn reset_in(m: &mut Image)
    ensures { m.new ≡ image_of power_reset }
{
    *m = [0u8; SIZE];
}
