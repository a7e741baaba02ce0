// The machine that runs a table. So far the mathematics that its code rests on: see specs/ and proofs/.
#![tactic(auto)]
