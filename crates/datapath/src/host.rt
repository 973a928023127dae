// The host FIFO of an image: its count, and its bytes, oldest first, 0 past the count.
ghost use Rattle.std.specs.Prelude.{◌≡◌, [], ◌∷◌, ◌++◌, ◌%◌, ◌/◌, ◌<◌, ◌≤◌, get_or, drop};
ghost use Rattle.image.specs.Image.{image_of, state_at, IsImage};
ghost use Rattle.rules.specs.Changed.{with_host};
ghost use Rattle.image.specs.Layout.{host_count_place};

use crate::copies::{byte_put, taken_off};
use image::layout::{HOST_BYTES, HOST_COUNT, Image};

// One byte more.
pub fn host_pushed(m: &mut Image, b: u8)
    requires image { IsImage m.old }
    requires host_count_place_bound { get_or m.old host_count_place 0 < 128 }
    ensures { m.new ≡ image_of (with_host ((state_at m.old).transfer.host ++ (b ∷ [])) (state_at m.old)) }
{
    byte_put::<HOST_COUNT, HOST_BYTES>(m, b);
}

// "A word's low byte comes first."
pub fn word_pushed(m: &mut Image, word: u16)
    requires image { IsImage m.old }
    requires host_count_place_bound { get_or m.old host_count_place 0 < 127 }
    ensures { m.new ≡ image_of (with_host ((state_at m.old).transfer.host ++ (word % 256 ∷ word / 256 ∷ [])) (state_at m.old)) }
{
    let [low, high] = word.to_le_bytes();
    byte_put::<HOST_COUNT, HOST_BYTES>(m, low);
    byte_put::<HOST_COUNT, HOST_BYTES>(m, high);
}

// The k oldest taken off: the front of `taken_off` for this FIFO, since each contract names its own part of the state.
pub fn host_popped(m: &mut Image, k: usize)
    requires image { IsImage m.old }
    requires k_bound { k ≤ get_or m.old host_count_place 0 }
    ensures { m.new ≡ image_of (with_host (drop k (state_at m.old).transfer.host) (state_at m.old)) }
{
    taken_off::<HOST_COUNT, HOST_BYTES>(m, k);
}

// "RSTFIFO empties the host FIFO."
pub fn host_emptied(m: &mut Image)
    requires { IsImage m.old }
    ensures { m.new ≡ image_of (with_host [] (state_at m.old)) }
{
    let held = usize::from(m[HOST_COUNT]);
    host_popped(m, held);
}
