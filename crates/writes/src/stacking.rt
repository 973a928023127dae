// The stack in place: "35Dh uses the place the pointer names, then the pointer goes up one, modulo 32 with ENSTK32, else
// modulo 16 with bit 4 ignored and then 0."
ghost use Rattle.std.specs.Prelude.{◌≡◌};
ghost use Rattle.rules.specs.Stack.{stack_read, stack_written, pointed};
ghost use Rattle.rules.specs.Changed.{with_stack};
ghost use Rattle.image.specs.Image.{IsImage, image_of, state_at};

use image::bits::enstk32;
use image::layout::{Image, POINTER, STACK_BYTES};
use stack::{next_of, place_of};

// A write of 35Dh.
pub fn pushed(m: &mut Image, value: u8)
    requires { IsImage m.old }
    ensures { m.new ≡ image_of (with_stack (stack_written (state_at m.old).registers.dmacntrl1.enstk32 value (state_at m.old).stack) (state_at m.old)) }
{
    let enstk32 = enstk32(m);
    let pointer = m[POINTER];
    let at = usize::from(place_of(enstk32, pointer));
    let next = next_of(enstk32, pointer);
    m[STACK_BYTES + at] = value;
    m[POINTER] = next;
}

// A read of 35Dh.
pub fn popped(m: &mut Image)
    requires { IsImage m.old }
    ensures { m.new ≡ image_of (with_stack (stack_read (state_at m.old).registers.dmacntrl1.enstk32 (state_at m.old).stack) (state_at m.old)) }
{
    let enstk32 = enstk32(m);
    m[POINTER] = next_of(enstk32, m[POINTER]);
}

// A write of 353h: "pointer 4-0".
pub fn pointed(m: &mut Image, value: u8)
    requires { IsImage m.old }
    ensures { m.new ≡ image_of (with_stack (pointed value (state_at m.old).stack) (state_at m.old)) }
{
    m[POINTER] = value % 32;
}
