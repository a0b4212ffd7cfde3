// One step of the machine: it is told a command, or to go on, and does one act.
#![tactic(auto)]

mod answers;
mod history;
mod load;
mod region;
mod rename;
mod rows;
pub mod step;
pub mod told;
