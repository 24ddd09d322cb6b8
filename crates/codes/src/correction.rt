// Mending, that is decoding of errors and erasures: the codeword that is near a word under its marks.
//
// The marked bits are filled with zeros, then with ones: one of the two words is within three positions of a near codeword.
ghost use Rattle.std.specs.Prelude.{◌≡◌, ◌^◌, ◌<◌};
ghost use Rattle.codes.specs.Projection.{Projection, width};
ghost use Rattle.codes.specs.Correction.{wrong, marked_wrong, ones, Near};
ghost use Rattle.codes.specs.Codes.{projection};
ghost use Rattle.codes.specs.ContractsOfSearch.{NearWithin, Sought};

use crate::code::Code;
use crate::search::within_three;

// A codeword is near up to this sum: twice the wrong bits, and the marks.
const BUDGET: u64 = 7;

// The number of a word's ones, whatever its code.
pub(crate) fn ones(packed: u64) -> u64
    ensures { (π : Projection) → packed < 2 ^ width π → result ≡ ones π packed }
{
    u64::from(packed.count_ones())
}

// A word under its marks, neither with a bit above the code's width.
#[derive(Clone, Copy)]
pub(crate) struct Marked {
    pub code: Code,
    pub word: u64,
    pub marks: u64,
    ghost word_fits: { word < 2 ^ width (projection code) },
    ghost marks_fit: { marks < 2 ^ width (projection code) },
}

impl Marked {
    // The number of unmarked positions where a codeword differs from the word.
    pub(crate) fn wrong(self, codeword: u64) -> u64
        requires { codeword < 2 ^ width (projection self.code) }
        ensures { result ≡ wrong (projection self.code) self.word self.marks codeword }
    {
        ones(((codeword ^ self.word) | self.marks) ^ self.marks)
    }

    // The number of marked positions where a codeword differs from the word.
    pub(crate) fn marked_wrong(self, codeword: u64) -> u64
        requires { codeword < 2 ^ width (projection self.code) }
        ensures { result ≡ marked_wrong (projection self.code) self.word self.marks codeword }
    {
        ones((codeword ^ self.word) & self.marks)
    }

    // The near codeword, if it is within three positions of a filling of the marked bits.
    fn fitting(self, filled: u64) -> Option<u64>
        requires { filled < 2 ^ width (projection self.code) }
        ensures { Sought (NearWithin (projection self.code) self.word self.marks 3 filled) result }
    {
        let found = within_three(self.code, filled)?;
        if 2 * self.wrong(found) + ones(self.marks) <= BUDGET {
            return Some(found);
        }
        None
    }

    // The near codeword, by the marked bits filled with zeros, or else with ones: in one loop, so that the search stands once in the machine code. Where
    // nothing is marked the two are the same.
    pub(crate) fn near(self) -> Option<u64>
        ensures { Sought (Near (projection self.code) self.word self.marks) result }
    {
        let full = self.word | self.marks;
        for filled in [full ^ self.marks, full] {
            if let Some(found) = self.fitting(filled) {
                return Some(found);
            }
            if self.marks == 0 {
                return None;
            }
        }
        None
    }
}
