// What the programs print, to the byte: the listing of a trace, the answers to a script's lines, a survey in words.
#![tactic(auto)]

mod answers;
mod input;
mod line;
mod listing;
mod reports;
mod text;
mod trouble;

pub use answers::{ANSWER, bytes_line, done_line, load_line, number_line, read_line, survey_line};
pub use input::{INPUT, LONGEST, file_in};
pub use listing::{TEXT, list};
pub use reports::{REPORT, report};
pub use trouble::{Trouble, trouble_line};
