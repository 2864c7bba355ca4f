// Statements and laws only: specs/ says what a walker asks, proofs/ how walks follow one another.

#![tactic(auto)]
