// The worked cases of the documents, on the proved step.
#![tactic(auto)]

use std::io;

fn main(rt: HostRuntime) -> io::Result<()> {
    stored::run(&rt)
}
