// Four binary codes in which any two codewords differ in at least eight positions: writing, strict reading and mending.
//
// A word is a number of 36 or 40 bits, its columns of four bits the hexadecimal digits, column 1 highest. `Code` is the type of
// the codes; each call is a method of it, and a function that takes a code by its number, 1 to 4. `Code::walk` hands on what mending and strict reading know of a
// word's parities, its top row and its syndrome.
//
// `#[inline(always)]` stands at functions that take or give an array of columns, a walk or a trial: where they are called and not inlined, these go through
// memory, and mending is slower.
#![tactic(auto)]

mod answer;
mod calls;
mod code;
mod correction;
mod message;
mod search;
mod table;
mod word;

pub use answer::{Correction, Refusal};
pub use calls::{correct, decode, encode};
pub use code::Code;
pub use word::Walk;
