// Definitions only: specs/ holds what a step of the analysis keeps, proofs/ that each step keeps it.

#![tactic(auto)]
