// What an analysis leaves, in words: the output's records as a tree, and the diagnostics.

#![tactic(auto)]

pub mod diagnostics;
pub mod layout;
pub mod parts;
pub mod records;
