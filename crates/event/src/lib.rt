// One event on the chip in the bytes of one array: the checks, then A, B, C and D, each in place.
#![tactic(auto)]

mod before;
mod closing;
mod finishing;
mod opening;
mod passing;
mod reset;
pub mod stepping;
