// Messages and their codewords, as arrays of columns.
ghost use Rattle.std.specs.Prelude.{◌≡◌, ◌-◌, ◌/◌, ◌^◌, ◌<◌, drop};
ghost use Rattle.symbols.specs.Symbol.{symbol_of, has_bit};
ghost use Rattle.symbols.specs.Column.{column_of, column_with};
ghost use Rattle.codes.specs.Projection.{size, top_bits, message_bits};
ghost use Rattle.codes.specs.Codes.{projection};
ghost use Rattle.codes.specs.Message.{message_of, codeword_of, first_parity, message_in, message_number};
ghost use Rattle.codes.specs.ContractsOfWalk.{held, value_at, drafted, high_part};

use crate::code::Code;
use crate::word::{ROOM, walk_columns};

// Whether a bit of a number is one, counted from the lowest.
fn has_bit(number: u64, place: u64) -> bool
    requires { place < 64 }
    ensures { result ≡ has_bit place number }
{
    (number >> place) % 2 == 1
}

// What the columns of a word are drafted from: a message, and the packed syndrome whose rows are the values of the columns that are not free.
#[derive(Clone, Copy)]
struct Draft {
    code: Code,
    message: u64,
    syndrome: u8,
}

impl Draft {
    // The value of a column: a free one has its own in the message, the others have the rows of the syndrome.
    fn value_at(self, column: usize) -> u8
        requires { column < size (projection self.code) }
        ensures { symbol_of result ≡ value_at (drop column (projection self.code).free) (self.message / 2 ^ top_bits (projection self.code)) self.syndrome }
    {
        let last = self.code.columns() - 1;
        let free = self.code.free_behind(column);
        if self.code.is_free(column) {
            return ((self.message >> ((last as u64) + 2 * free)) % 4) as u8;
        }
        let others = ((last - column) as u64) - free;
        ((u64::from(self.syndrome) >> (2 * others)) % 4) as u8
    }

    // A column, with a top bit.
    fn column_at(self, column: usize, top: bool) -> u8
        requires { column < size (projection self.code) }
        ensures { column_of result ≡ column_with (has_bit (message_bits (projection self.code) - 1) self.message)
            (value_at (drop column (projection self.code).free) (self.message / 2 ^ top_bits (projection self.code)) self.syndrome) top }
    {
        let parity = has_bit(self.message, self.code.message_bits() - 1);
        symbols::column_with(parity, self.value_at(column), top)
    }

    // The columns.
    fn columns(self) -> [u8; ROOM]
        ensures { held (projection self.code) result ≡ drafted (projection self.code) self.message self.syndrome }
    {
        let last = self.code.columns() - 1;
        let mut columns = [0u8; ROOM];
        let mut top = self
            .code
            .top_parity(has_bit(self.message, self.code.message_bits() - 1));
        for i in 0..last {
            let bit = has_bit(self.message, (last - 1 - i) as u64);
            columns[i] = self.column_at(i, bit);
            top ^= bit;
        }
        columns[last] = self.column_at(last, top);
        columns
    }
}

// The columns of a message's codeword: the free values' syndrome is what the other columns must have.
pub(crate) fn codeword(code: Code, message: u64) -> [u8; ROOM]
    ensures { held (projection code) result ≡ codeword_of (projection code) (message_of (projection code) message) }
{
    let draft = Draft {
        code,
        message,
        syndrome: 0,
    };
    let syndrome = walk_columns(code, draft.columns()).syndrome;
    Draft { syndrome, ..draft }.columns()
}

// The parity of a word's first column and the free values of its columns, highest first.
fn high_part(code: Code, odd: bool, columns: [u8; ROOM]) -> u64
    requires { odd ≡ first_parity (held (projection code) columns) }
    ensures { result ≡ high_part (projection code) (held (projection code) columns) }
{
    let mut number = u64::from(odd);
    for (i, column) in columns.iter().enumerate() {
        if code.is_free(i) {
            number = number * 4 + u64::from(symbols::value(*column));
        }
    }
    number
}

// The message that a codeword's columns say: behind its high part stand their top bits but the last. Whether the first column is odd is known.
#[inline(always)]
pub(crate) fn message_in(code: Code, odd: bool, columns: [u8; ROOM]) -> u64
    requires { odd ≡ first_parity (held (projection code) columns) }
    ensures { result ≡ message_number (projection code) (message_in (projection code) (held (projection code) columns)) }
{
    let mut number = high_part(code, odd, columns);
    for (i, column) in columns.iter().enumerate() {
        if i + 1 < code.columns() {
            number = number * 2 + u64::from(symbols::top(*column));
        }
    }
    number
}
