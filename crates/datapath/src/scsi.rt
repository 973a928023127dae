// The SCSI FIFO of an image, its count and its bytes, and the offset.
ghost use Rattle.std.specs.Prelude.{◌≡◌, [], ◌∷◌, ◌++◌, ◌<◌, ◌≤◌, get_or, drop};
ghost use Rattle.image.specs.Image.{image_of, state_at, IsImage};
ghost use Rattle.rules.specs.Changed.{with_scsi, with_offset};
ghost use Rattle.image.specs.Layout.{scsi_count_place};
ghost use Rattle.datapath.specs.Fits.{byte_stored};

use crate::copies::{byte_put, taken_off};
use image::layout::{Image, OFFSET, SCSI_BYTES, SCSI_COUNT};

// The byte in the first free place of the SCSI FIFO.
pub fn byte_stored(m: &mut Image, byte: u8)
    requires { get_or m.old scsi_count_place 0 < 8 }
    ensures { m.new ≡ byte_stored byte m.old }
{
    byte_put::<SCSI_COUNT, SCSI_BYTES>(m, byte);
}

// One byte more.
pub fn scsi_pushed(m: &mut Image, b: u8)
    requires image { IsImage m.old }
    requires scsi_count_place_bound { get_or m.old scsi_count_place 0 < 8 }
    ensures { m.new ≡ image_of (with_scsi ((state_at m.old).transfer.scsi ++ (b ∷ [])) (state_at m.old)) }
{
    byte_stored(m, b);
}

// The k oldest taken off: the front of `taken_off` for this FIFO.
pub fn scsi_popped(m: &mut Image, k: usize)
    requires image { IsImage m.old }
    requires k_bound { k ≤ get_or m.old scsi_count_place 0 }
    ensures { m.new ≡ image_of (with_scsi (drop k (state_at m.old).transfer.scsi) (state_at m.old)) }
{
    taken_off::<SCSI_COUNT, SCSI_BYTES>(m, k);
}

// "CLRCH empties the SCSI FIFO and zeroes the offset"
pub fn channel_cleared(m: &mut Image)
    requires { IsImage m.old }
    ensures { m.new ≡ image_of (with_offset 0 (with_scsi [] (state_at m.old))) }
{
    let held = usize::from(m[SCSI_COUNT]);
    scsi_popped(m, held);
    m[OFFSET] = 0;
}
