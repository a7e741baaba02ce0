// What the four lists of the notes of a state tell of it: a crate of theorems.
#![tactic(auto)]
