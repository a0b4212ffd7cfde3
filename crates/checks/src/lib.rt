// Examples of the machine's step that no session can play: a session goes on until each answer has ended, and lends what it should.
#![tactic(auto)]

#[cfg(test)]
mod answers;
#[cfg(test)]
mod bench;
#[cfg(test)]
mod commands;
#[cfg(test)]
mod history;
#[cfg(test)]
mod misuse;
#[cfg(test)]
mod refusals;
