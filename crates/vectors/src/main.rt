// Streams by seed with the second implementation's answers, on the proved step.
#![tactic(auto)]

use std::io;

fn main(rt: HostRuntime) -> io::Result<()> {
    stored::run(&rt)
}
