// Definitions only: specs/ lists the settlings of a run one by one, proofs/ shows that each ends in time and that their rounds are the report's.

#![tactic(auto)]
