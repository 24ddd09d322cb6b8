// A line of a script, taken byte by byte, and what it asks for: its command, the part of it that is the command's argument, the bytes that it
// lends, the list of puts that it is, and what a call prints and leaves.
#![tactic(auto)]

mod answering;
mod held;
mod hex;
mod items;
mod lending;
mod line;
mod lists;
mod numbers;
mod parts;
mod taking;
mod words;

pub use answering::{answer, answer_list};
pub use held::{Held, LINE};
pub use lending::{NotTaken, lend, lend_bytes, lend_input};
pub use line::{Call, Command, parse_line};
pub use lists::Puts;
pub use parts::{argument, bare};
pub use taking::{NUMBERS, take_lists};
