// What reads give, the interrupt line and the answer, read off an image.
#![tactic(auto)]

pub mod answers;
pub mod interrupts;
pub mod selection;
pub mod status;
pub mod values;
