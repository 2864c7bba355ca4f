// Theorems only: the worked cases at the limit of nesting, apart from crate rules because they take long to compute.

#![tactic(auto)]
