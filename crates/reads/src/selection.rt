// R-1: the statuses of selection and reselection, read off an image: one bit each, a function for each by its name in the data book.
#![tactic(auto, unfolding(image::specs::Image::state_at))]

ghost use Rattle.std.specs.Prelude.{◌≡◌};
ghost use Rattle.image.specs.Image.{state_at};

use image::layout::{Image, SEQUENCER};

pub fn seldo(m: &Image) -> bool
    ensures { result ≡ (state_at m.now).sequencer.status.seldo }
{
    (m[SEQUENCER] >> 7) % 2 == 1
}

pub fn seldi(m: &Image) -> bool
    ensures { result ≡ (state_at m.now).sequencer.status.seldi }
{
    (m[SEQUENCER] >> 6) % 2 == 1
}

pub fn selto(m: &Image) -> bool
    ensures { result ≡ (state_at m.now).sequencer.status.selto }
{
    (m[SEQUENCER] >> 5) % 2 == 1
}

pub fn selingo(m: &Image) -> bool
    ensures { result ≡ (state_at m.now).sequencer.status.selingo }
{
    (m[SEQUENCER] >> 3) % 2 == 1
}
