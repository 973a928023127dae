// The status byte and the latch byte of an image, changed in place.
#![tactic(auto)]

pub mod latches;
pub mod status;
