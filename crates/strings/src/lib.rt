// R-3: string port transfers, over the chip's bytes in one array and over a chip by value.
#![tactic(auto)]

use rules::chip::Chip;
use rules::codes::Code;

pub mod blocks;
pub mod read_call;
pub mod reading;
pub mod sending;
pub mod write_call;
pub mod writing;

// What a call hands back: the words done, the bytes stored in the lent buffer, and the refusal that stopped it.
// No Result, here and below: the words before a refusal are done, so both count.
#[derive(Clone, Copy)]
pub struct Passed {
    pub done: usize,
    pub count: usize,
    pub code: Code,
}

// What a read call of a chip by value hands back: the chip, the words done, and the refusal that stopped it.
#[derive(Clone, Copy)]
pub struct Fetched {
    pub chip: Chip,
    pub done: usize,
    pub code: Code,
}

// What a write call of a chip by value hands back: the chip, the words done, the number of bytes sent, and the refusal that stopped it.
#[derive(Clone, Copy)]
pub struct Written {
    pub chip: Chip,
    pub done: usize,
    pub sent: usize,
    pub code: Code,
}
