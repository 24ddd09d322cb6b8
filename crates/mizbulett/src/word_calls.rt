// The word calls.
ghost use Rattle.std.specs.Prelude.{◌≡◌};
ghost use Rattle.codes.specs.Codes.{correction_values, encoding, decoding, correcting, under};
ghost use Rattle.mizbulett.specs.Returned.{returned, returns};

use crate::answers::{give, lone};
use codes::Correction;
use trace::Refusal;

// Writes the codeword of a message. Refusals 1 and 2.
#[unsafe(no_mangle)]
pub extern "C" fn mizbulett_encode(code: u64, message: u64, out: &mut [u64; 1]) -> u64
    ensures { returned result out.new ≡ returns (under code (λ π. encoding π message)) out.old }
{
    let codeword = codes::encode(code, message).map_err(Refusal::from);
    give(codeword.map(lone), out)
}

// Writes the message of a codeword. Refusals 1, 3 and 4.
#[unsafe(no_mangle)]
pub extern "C" fn mizbulett_decode(code: u64, word: u64, out: &mut [u64; 1]) -> u64
    ensures { returned result out.new ≡ returns (under code (λ π. decoding π word)) out.old }
{
    let message = codes::decode(code, word).map_err(Refusal::from);
    give(message.map(lone), out)
}

// Of a correction: the near codeword, its message, how many positions were wrong, the number of marks, and how many marked positions were wrong.
fn values(c: Correction) -> [u64; 5]
    ensures { result ≡ correction_values c }
{
    [c.codeword, c.message, c.wrong, c.marks, c.marked_wrong]
}

// Writes the near codeword, its message, how many positions were wrong, the number of marks, and how many marked positions were wrong. Refusals 1, 3 and 5.
#[unsafe(no_mangle)]
pub extern "C" fn mizbulett_correct(code: u64, word: u64, marks: u64, out: &mut [u64; 5]) -> u64
    ensures { returned result out.new ≡ returns (under code (λ π. correcting π word marks)) out.old }
{
    let correction = codes::correct(code, word, marks).map_err(Refusal::from);
    give(correction.map(values), out)
}
