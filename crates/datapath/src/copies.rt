// Bytes behind those of a FIFO, and off its front: COUNT is the place of its count, and BYTES that of its oldest byte.
ghost use Rattle.std.specs.Prelude.{◌≡◌, ◌+◌, ◌-◌, ◌<◌, ◌≤◌, length, get_or, set};
ghost use Rattle.datapath.specs.Laid.{lowered};
ghost use Rattle.image.specs.Layout.{image_size};

use image::copies::{copied, zeroed};
use image::layout::Image;

// One byte more, in the first free place.
pub fn byte_put<const COUNT: usize, const BYTES: usize>(m: &mut Image, b: u8)
    requires count_place { COUNT < image_size }
    requires byte_place { BYTES + get_or m.old COUNT 0 < image_size }
    requires room { get_or m.old COUNT 0 < 255 }
    ensures { m.new ≡ set (set m.old (BYTES + get_or m.old COUNT 0) b) COUNT (get_or m.old COUNT 0 + 1) }
{
    let held = m[COUNT];
    m[BYTES + usize::from(held)] = b;
    m[COUNT] = held + 1;
}

// Of n bytes k are taken off the front: the others move down, and zeros follow.
pub fn moved_down(m: &mut Image, at: usize, n: usize, k: usize)
    requires m_len { length m.old ≡ image_size }
    requires n_bound { at + n ≤ image_size }
    requires k_le_n { k ≤ n }
    ensures { m.new ≡ lowered m.old at n k }
{
    copied(m, at + k, at, n - k);
    zeroed(m, at + (n - k), k);
}

// The k oldest taken off.
pub fn taken_off<const COUNT: usize, const BYTES: usize>(m: &mut Image, k: usize)
    requires m_len { length m.old ≡ image_size }
    requires count_place { COUNT < image_size }
    requires places { BYTES + get_or m.old COUNT 0 ≤ image_size }
    requires k_bound { k ≤ get_or m.old COUNT 0 }
    ensures { m.new ≡ set (lowered m.old BYTES (get_or m.old COUNT 0) k) COUNT (get_or m.old COUNT 0 - k) }
{
    let held = m[COUNT];
    moved_down(m, BYTES, usize::from(held), k);
    m[COUNT] = held - k as u8;
}
