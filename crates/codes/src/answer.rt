// What the word calls answer.
ghost use Rattle.std.specs.Prelude.{◌≡◌};
ghost use Rattle.codes.specs.Codes.{refusal_number};

// Why a call is refused.
#[derive(Clone, Copy, Debug, PartialEq, Eq)]
pub enum Refusal {
    UnknownCode,
    MessageTooLarge,
    WordTooWide,
    NotACodeword,
    NoneNear,
}

impl Refusal {
    // The number that is returned.
    pub fn number(self) -> u64
        ensures { result ≡ refusal_number self }
    {
        match self {
            Refusal::UnknownCode => 1,
            Refusal::MessageTooLarge => 2,
            Refusal::WordTooWide => 3,
            Refusal::NotACodeword => 4,
            Refusal::NoneNear => 5,
        }
    }
}

// What mending finds: the near codeword, its message, the number of unmarked positions where it differs from the word, that of the marks, and that of the
// marked positions where it differs.
#[derive(Clone, Copy)]
pub struct Correction {
    pub codeword: u64,
    pub message: u64,
    pub wrong: u64,
    pub marks: u64,
    pub marked_wrong: u64,
}
