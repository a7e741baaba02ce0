// The demands about calls on texts: statements and proofs only.
#![tactic(auto)]
