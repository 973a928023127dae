// R-4 over the calls of a host program: a box that holds the stack apart calls `stackhost::rabenteig_stack` and
// `host::rabenteig_step`. What it does stands in specs/Turns.antt, that it shows the chip in proofs/.
#![tactic(auto)]
