// What the tests know of a code and its words, by plain arithmetic. A code goes by its number, as the scope has it: which
// of two lengths it has is all that is asked, so an enum would be no plainer. Nothing here is the library's. A message is a step times 4096 plus a reading.
ghost use Rattle.std.specs.Prelude.{◌≤◌, ◌<◌};

// The readings of a step.
pub(crate) const READINGS: u64 = 4096;

// The bits of the widest words.
pub(crate) const WIDEST: u64 = 40;

// The columns of a code's words.
pub(crate) fn columns(code: u32) -> usize
    ensures low { 9 ≤ result }
    ensures high { result ≤ 10 }
{
    if code <= 2 { 9 } else { 10 }
}

// The bits of a code's words.
pub(crate) fn width(code: u32) -> u64
    ensures low { 36 ≤ result }
    ensures high { result ≤ 40 }
{
    if code <= 2 { 36 } else { WIDEST }
}

// The bits of a code's messages.
pub(crate) fn message_bits(code: u32) -> u64
    ensures low { 19 ≤ result }
    ensures high { result ≤ 22 }
{
    if code <= 2 { 19 } else { 22 }
}

// The number of a code's steps.
pub(crate) fn steps(code: u32) -> u64
    ensures low { 0 < result }
    ensures high { result ≤ 1024 }
{
    if code <= 2 { 128 } else { 1024 }
}

// The number of a code's messages.
pub(crate) fn messages(code: u32) -> u64
    ensures { result ≤ 4194304 }
{
    steps(code) * READINGS
}

// The positions of a code's words, each a one.
pub(crate) fn positions(code: u32) -> u64 {
    if code <= 2 {
        0xF_FFFF_FFFF
    } else {
        0xFF_FFFF_FFFF
    }
}

// The bit of a position, where there is such a position.
pub(crate) fn bit(code: u32, position: u64) -> Option<u64> {
    let width = width(code);
    if width <= position {
        return None;
    }
    Some(1 << (width - 1 - position))
}

// The ones of a number.
pub(crate) fn ones(number: u64) -> u64
    ensures { result < 4294967296 }
{
    u64::from(number.count_ones())
}

// A word and its marks.
#[derive(Clone, Copy)]
pub(crate) struct Word {
    pub bits: u64,
    pub marks: u64,
}

impl Word {
    // The unmarked positions where a codeword differs from the word.
    pub(crate) fn wrong(self, codeword: u64) -> u64
        ensures { result < 4294967296 }
    {
        ones(((codeword ^ self.bits) | self.marks) ^ self.marks)
    }

    // The marked positions where a codeword differs from the word: the codeword against the word's bits, under the marks.
    pub(crate) fn marked_wrong(self, codeword: u64) -> u64 {
        ones((codeword & self.marks) ^ (self.bits & self.marks))
    }

    // Twice the wrong positions, and the marks: a codeword is near where this is at most 7.
    pub(crate) fn sum(self, codeword: u64) -> u64 {
        2 * self.wrong(codeword) + ones(self.marks)
    }

    // Whether a codeword is near. Most have more than three wrong positions, and are far whatever the marks.
    pub(crate) fn is_near(self, codeword: u64) -> bool {
        self.wrong(codeword) <= 3 && self.sum(codeword) <= 7
    }
}
