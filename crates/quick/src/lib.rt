// Quick ways of a run: what stands beside an image is defined in specs/, the theorems on the events that they take stand in proofs/.
#![tactic(auto)]
