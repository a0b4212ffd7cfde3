// Sessions as text: bytes in hex, what a line of a session says, and what is printed of the answers.
#![tactic(auto)]

mod answers;
mod hex;
mod lines;

pub use answers::{Ending, write_ending, write_row};
pub use hex::{HexError, read_hex, write_hex};
pub use lines::read_line;
