// Theorems only: accepted tables of which the statements of `agreement` speak. See specs/.
#![tactic(auto)]
