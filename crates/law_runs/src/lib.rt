// Definitions only: specs/ says the analysis from a place of the bytes, proofs/ what is shown of it.

#![tactic(auto)]
