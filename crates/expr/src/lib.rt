// Expressions in lent memory: rows of bytes, names among names, what stands first in a spelling, and where it ends. No recursion over an expression.
#![tactic(auto)]

pub mod bytes;
pub mod compare;
pub mod look;
pub mod node;
pub mod packed;
pub mod place;
pub mod skip;
pub mod source;
pub mod token;
