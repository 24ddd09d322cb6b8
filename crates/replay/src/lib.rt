// Runs a list of trace calls that is given as numbers, and writes their answers as numbers.
#![tactic(auto)]

mod answers;
mod calls;
mod runs;

pub use runs::replay;
