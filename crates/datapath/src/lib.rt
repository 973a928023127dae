// What A changes of the data path, in place: the two FIFOs, the counter, the offset and the automatic ACK.
#![tactic(auto)]

pub mod copies;
pub mod counts;
pub mod host;
pub mod scsi;
