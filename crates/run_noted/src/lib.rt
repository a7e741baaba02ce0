// What the four lists hold, by notes of what each row would do: a crate of definitions and theorems.
#![tactic(auto)]
