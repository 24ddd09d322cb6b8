// The four codes. Here stand the numbers that tell one from another; what is computed from their check matrices stands in table.rt.
ghost use Rattle.std.specs.Prelude.{◌≡◌, suc, ◌^◌, false, drop, slice_index_or};
ghost use Rattle.codes.specs.Projection.{wanted, count, size, width, message_bits};
ghost use Rattle.codes.specs.Codes.{projection, step_limit, code_found};

use crate::answer::Refusal;

// A code of 36 or 40 bits under the top rule O or E.
#[derive(Clone, Copy)]
pub enum Code {
    O36,
    E36,
    O40,
    E40,
}

// The code with a number, 1 to 4, or the refusal of any other number.
impl TryFrom<u64> for Code {
    type Error = Refusal;

    ghost try_from_gives = { λ number r. r ≡ code_found number };

    fn try_from(number: u64) -> Result<Self, Refusal> {
        match number {
            1 => Ok(Code::O36),
            2 => Ok(Code::E36),
            3 => Ok(Code::O40),
            4 => Ok(Code::E40),
            _ => Err(Refusal::UnknownCode),
        }
    }
}

impl Code {
    // The numbers of the codes of 36 bits, and of those of 40: by a rule of the project they are constants of this type.
    const COLUMNS_36: usize = 9;

    const COLUMNS_40: usize = 10;

    const MESSAGE_BITS_36: u64 = 19;

    const MESSAGE_BITS_40: u64 = 22;

    // The number of readings: a message is a step times this plus a reading.
    pub const READINGS: u64 = 4096;

    // Which columns are free, and how many free ones stand behind each column.
    const FREE_36: [bool; 10] = [
        false, false, false, false, true, true, true, true, true, false,
    ];

    const FREE_40: [bool; 10] = [
        true, true, true, false, true, true, true, false, false, false,
    ];

    const BEHIND_36: [u8; 10] = [5, 5, 5, 5, 4, 3, 2, 1, 0, 0];

    const BEHIND_40: [u8; 10] = [5, 4, 3, 3, 2, 1, 0, 0, 0, 0];

    // The number of columns.
    pub fn columns(self) -> usize
        ensures { result ≡ size (projection self) }
    {
        match self {
            Code::O36 | Code::E36 => Code::COLUMNS_36,
            Code::O40 | Code::E40 => Code::COLUMNS_40,
        }
    }

    // The bits of a word: four for each column.
    pub fn width(self) -> u64
        ensures { result ≡ width (projection self) }
    {
        4 * self.columns() as u64
    }

    // The bits of a message.
    pub fn message_bits(self) -> u64
        ensures { result ≡ message_bits (projection self) }
    {
        match self {
            Code::O36 | Code::E36 => Code::MESSAGE_BITS_36,
            Code::O40 | Code::E40 => Code::MESSAGE_BITS_40,
        }
    }

    // The first number that is no word: 2 to the power of the width.
    pub fn word_limit(self) -> u64
        ensures { result ≡ 2 ^ width (projection self) }
    {
        1u64 << self.width()
    }

    // The first number that is no message.
    pub fn message_limit(self) -> u64
        ensures { result ≡ 2 ^ message_bits (projection self) }
    {
        1u64 << self.message_bits()
    }

    // The number of steps.
    pub fn step_limit(self) -> u64
        ensures { result ≡ step_limit (projection self) }
    {
        self.message_limit() / Code::READINGS
    }

    // Whether a column, counted from 0, is free.
    pub fn is_free(self, column: usize) -> bool
        ensures { result ≡ slice_index_or (projection self).free column false }
    {
        if 10 <= column {
            return false;
        }
        match self {
            Code::O36 | Code::E36 => Code::FREE_36[column],
            Code::O40 | Code::E40 => Code::FREE_40[column],
        }
    }

    // The number of free columns behind a column, counted from 0.
    pub fn free_behind(self, column: usize) -> u64
        ensures { result ≡ count (drop (suc column) (projection self).free) }
    {
        if 10 <= column {
            return 0;
        }
        match self {
            Code::O36 | Code::E36 => u64::from(Code::BEHIND_36[column]),
            Code::O40 | Code::E40 => u64::from(Code::BEHIND_40[column]),
        }
    }

    // The top row's parity where the columns have this parity.
    pub fn top_parity(self, parity: bool) -> bool
        ensures { result ≡ wanted (projection self).rule parity }
    {
        match self {
            Code::O36 | Code::O40 => parity,
            Code::E36 | Code::E40 => false,
        }
    }
}
