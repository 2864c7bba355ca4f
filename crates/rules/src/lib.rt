// Definitions only: specs/ holds document 01, proofs/ what is shown of it.

#![tactic(auto)]
