// The counter's step (R-6): the way it goes, and what it says besides the new value.
#[derive(Clone, Copy, PartialEq, Eq)]
pub enum Direction {
    Up,
    Down,
}

// passed: the counter came to its end, 0. No Option: the new value stands in both cases.
#[derive(Clone, Copy)]
pub struct CounterStep {
    pub value: u32,
    pub passed: bool,
}
