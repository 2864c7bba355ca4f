// Definitions only: specs/ holds lexical scoping and the walk over an output, proofs/ what ties both to the rules.

#![tactic(auto)]
