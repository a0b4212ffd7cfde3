// Commands read from bytes.
#![tactic(auto)]

pub mod field;
pub mod functions;
pub mod names;
pub mod program;
pub mod request;
pub mod spelling;
