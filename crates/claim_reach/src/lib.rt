// Definitions only: specs/ holds the walk over an output and what it is to reach, proofs/ what is shown of it so far.

#![tactic(auto)]
