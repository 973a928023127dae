// What changed on the bus in one event, found all at once; quiet is the number of quiet ticks after it.

#[derive(Clone, Copy)]
pub struct Edges {
    pub reqfalls: bool,
    pub rstrises: bool,
    pub reqrises: bool,
    pub paritybad: bool,
    pub beyond: bool,
    pub within: bool,
    pub stored: bool,
    pub late: bool,
    pub free: bool,
    pub quiet: u8,
}
