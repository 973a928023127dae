// What was seen at the end of the last event: all of it that step B asks for.

#[derive(Clone, Copy)]
pub struct Before {
    pub rst: bool,
    pub req: bool,
    pub mismatched: bool,
}

// The bytes that it is read off: the lines in the order of 343h, 343h, RST, 340h, and the sequencer's phase. The lines come first,
// since they are compared first: in a line event it is they that changed.
#[derive(Clone, Copy, PartialEq, Eq)]
pub struct Seen {
    pub control: u8,
    pub sig: u8,
    pub upper: u8,
    pub seq: u8,
    pub sequencer: u8,
}
