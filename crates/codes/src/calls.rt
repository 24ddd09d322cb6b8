// The word calls, under a code and by a code's number.
ghost use Rattle.std.specs.Prelude.{◌≡◌, ℕ, ◌^◌, ◌<◌};
ghost use Rattle.codes.specs.Projection.{size};
ghost use Rattle.codes.specs.Word.{word, is_codeword};
ghost use Rattle.codes.specs.Claims.{WalkCollects};
ghost use Rattle.codes.specs.Codes.{projection, encoded_answer, decoded_answer, corrected_answer, encoding, decoding, correcting, under};

use crate::answer::{Correction, Refusal};
use crate::code::Code;
use crate::correction::{Marked, ones};
use crate::message::{codeword, message_in};
use crate::word::{Walk, is_first_odd, lacking, pack, unpack};

// With more marks than this no codeword is near.
const MOST_MARKS: u64 = 7;

// Whether a word that was walked is a codeword: its syndrome is zero, no column lacks the first one's parity, and the top row has the parity that the
// rule wants.
fn is_codeword(code: Code, walk: Walk) -> bool
    requires { walk.parities < 2 ^ size (projection code) }
    ensures { (w : ℕ) → WalkCollects code w walk → result ≡ is_codeword (projection code) (word (projection code) w) }
{
    let odd = is_first_odd(walk.parities);
    walk.syndrome == 0 && lacking(code, odd, walk.parities) == 0 && walk.top == code.top_parity(odd)
}

impl Code {
    // The codeword of a message. Refused where the message has too many bits.
    pub fn encode(self, message: u64) -> Result<u64, Refusal>
        ensures { encoded_answer result ≡ encoding (projection self) message }
    {
        if self.message_limit() <= message {
            return Err(Refusal::MessageTooLarge);
        }
        Ok(pack(self, codeword(self, message)))
    }

    // The message of a codeword. Refused where the word has a bit above the code's width, or is no codeword.
    pub fn decode(self, word: u64) -> Result<u64, Refusal>
        ensures { decoded_answer result ≡ decoding (projection self) word }
    {
        if self.word_limit() <= word {
            return Err(Refusal::WordTooWide);
        }
        let walk = self.walk(word);
        if is_codeword(self, walk) {
            return Ok(message_in(self, is_first_odd(walk.parities), unpack(self, word)));
        }
        Err(Refusal::NotACodeword)
    }

    // The near codeword, its message, the number of wrong bits, that of the marks and that of the marked bits that were wrong. Refused where the word or the
    // marks have a bit above the code's width, or no codeword is near.
    pub fn correct(self, word: u64, marks: u64) -> Result<Correction, Refusal>
        ensures { corrected_answer result ≡ correcting (projection self) word marks }
    {
        if self.word_limit() <= word || self.word_limit() <= marks {
            return Err(Refusal::WordTooWide);
        }
        let count = ones(marks);
        if MOST_MARKS < count {
            return Err(Refusal::NoneNear);
        }
        let marked = Marked {
            code: self,
            word,
            marks,
        };
        let Some(codeword) = marked.near() else {
            return Err(Refusal::NoneNear);
        };
        // the codeword was not walked: the walk was over the word with its marked bits filled
        let columns = unpack(self, codeword);
        Ok(Correction {
            codeword,
            message: message_in(self, symbols::parity(columns[0]), columns),
            wrong: marked.wrong(codeword),
            marks: count,
            marked_wrong: marked.marked_wrong(codeword),
        })
    }
}

// Writing: the codeword of a message under the code with a number.
pub fn encode(code: u64, message: u64) -> Result<u64, Refusal>
    ensures { encoded_answer result ≡ under code (λ π. encoding π message) }
{
    Code::try_from(code)?.encode(message)
}

// Strict reading: the message of a codeword of the code with a number.
pub fn decode(code: u64, word: u64) -> Result<u64, Refusal>
    ensures { decoded_answer result ≡ under code (λ π. decoding π word) }
{
    Code::try_from(code)?.decode(word)
}

// Mending: the near codeword under the code with a number.
pub fn correct(code: u64, word: u64, marks: u64) -> Result<Correction, Refusal>
    ensures { corrected_answer result ≡ under code (λ π. correcting π word marks) }
{
    Code::try_from(code)?.correct(word, marks)
}
