// The chip in the bytes of one array, changed in place.
#![tactic(auto)]

pub mod bits;
pub mod bus;
pub mod bytes;
pub mod copies;
pub mod layout;
pub mod sequencer;
