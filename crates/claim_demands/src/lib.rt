// Statements only: what a call of `analyze` means to its caller, from its contract alone.

#![tactic(auto)]
