// Which images are accepted: the definition stands in specs/Accepted.antt.
#![tactic(auto)]

ghost use Rattle.std.specs.Prelude.{◌≡◌};
ghost use Rattle.saved.specs.Accepted.{counts_fit, accepted};

use crate::clear::{others_clear, registers_clear};
use crate::past::past_clear;
use crate::rest::is_resting;
use image::layout::{HOST_COUNT, Image, OFFSET, QUIET, SCSI_COUNT};

pub mod bytes;
mod calm;
mod clear;
mod past;
mod rest;
pub mod slices;

// "FIFO counts at most 128 and 8, offset and quiet count at most 8"
#[tactic(auto, unfolding(crate::specs::Accepted::counts_fit))]
fn counts_fit(m: &Image) -> bool
    ensures { result ≡ counts_fit m.now }
{
    (m[HOST_COUNT] <= 128) & (m[SCSI_COUNT] <= 8) & (m[OFFSET] <= 8) & (m[QUIET] <= 8)
}

// Nothing is copied and no event is run: the image is looked at, the cheap tests first.
#[tactic(auto, using(crate::proofs::Packing::accepted_by_lem))]
pub fn is_accepted(m: &Image) -> bool
    ensures { result ≡ accepted m.now }
{
    bytes::known(m);
    counts_fit(m) && registers_clear(m) && others_clear(m) && past_clear(m) && is_resting(m)
}
