// Traces of readings in a lent buffer: making, put, list of puts, flip, mark, load, clear, read and survey.
#![tactic(auto)]

mod answer;
mod bytes;
mod calls;
mod change;
mod generator;
mod layout;
mod lists;
mod loads;
mod slot;
mod status;
mod surveys;
mod tally;

pub use answer::{Counts, Pressures, Reading, Refusal, Survey};
pub use calls::{clear, flip, load, make, mark, put, read, read_alone};
pub use layout::{SLOT, TRAILER};
pub use lists::put_list;
pub use status::Status;
pub use surveys::survey;
