// The names of a text resolved: each stands for the row that it means. Theorems only; the code is in the crates that use them.
#![tactic(auto)]
