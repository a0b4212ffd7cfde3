// What names stand for: who gives a name, which uses belong to it, whether a new name would be captured, and the program with the new name.
#![tactic(auto)]

pub mod binder;
mod frames;
pub mod renaming;
pub mod replace;
pub mod uses;
pub mod walk;
