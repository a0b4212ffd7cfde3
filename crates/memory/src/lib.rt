// The machine's memory: which word is what, the current program in it, and the area where a new one is written.
#![tactic(auto)]

pub mod build;
pub mod layout;
