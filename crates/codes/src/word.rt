// A word as an array of columns, by value, which is a form that the scope names, and one walk over it. A code of m columns uses the first m of ten. `unpack`, the walk and `message_in` go over
// all ten: a loop of a constant number of rounds keeps the array in registers.
ghost use Rattle.std.specs.Prelude.{◌≡◌, ◌^◌, ◌<◌, Bool, List, map, length};
ghost use Rattle.symbols.specs.Symbol.{◌⊻◌, has_bit};
ghost use Rattle.codes.specs.Digits.{mask};
ghost use Rattle.codes.specs.Projection.{size};
ghost use Rattle.codes.specs.Codes.{projection};
ghost use Rattle.codes.specs.Word.{word, word_number};
ghost use Rattle.codes.specs.Claims.{WalkCollects};
ghost use Rattle.codes.specs.ContractsOfWalk.{held, Collected, OneMore};

use crate::code::Code;
use crate::table::{multiple, multiples};

// The columns that an array has room for.
pub(crate) const ROOM: usize = 10;

// What one walk over the columns of a word hands on: each column's parity, the first column's lowest, the top row's parity, and the syndrome,
// packed with its first row highest.
#[derive(Clone, Copy)]
pub struct Walk {
    pub parities: u64,
    pub top: bool,
    pub syndrome: u8,
}

// The columns of a word; bits above the code's width are left out.
pub(crate) fn unpack(code: Code, packed: u64) -> [u8; ROOM]
    ensures { held (projection code) result ≡ word (projection code) packed }
{
    let mut columns = [0u8; ROOM];
    let mut rest = packed << (4 * (ROOM - code.columns()));
    for i in (0..ROOM).rev() {
        columns[i] = (rest % 16) as u8;
        rest /= 16;
    }
    columns
}

// The number of a word's columns.
pub(crate) fn pack(code: Code, columns: [u8; ROOM]) -> u64
    ensures { result ≡ word_number (held (projection code) columns) }
{
    let mut number: u64 = 0;
    for column in &columns[..code.columns()] {
        number = number * 16 + u64::from(*column % 16);
    }
    number
}

impl Walk {
    // What is handed on with one column more in front, column i, counted from 0. A column behind the code's last changes nothing.
    // There is room for one parity more.
    fn with_column(self, code: Code, i: usize, column: u8) -> Walk
        requires { (i < 10) × (self.parities < 2 ^ 63) }
        ensures { OneMore (projection code) i column self result }
    {
        if code.columns() <= i {
            return self;
        }
        Walk {
            parities: self.parities * 2 + u64::from(symbols::parity(column)),
            top: self.top ^ symbols::top(column),
            syndrome: self.syndrome ^ multiple(multiples(code, i), symbols::value(column)),
        }
    }
}

// One walk over columns, from the last to the first.
#[inline(always)]
pub(crate) fn walk_columns(code: Code, columns: [u8; ROOM]) -> Walk
    ensures { Collected (projection code).rows (projection code).matrix (held (projection code) columns) result }
{
    let mut walk = Walk {
        parities: 0,
        top: false,
        syndrome: 0,
    };
    for i in (0..ROOM).rev() {
        walk = walk.with_column(code, i, columns[i]);
    }
    walk
}

// The columns that lack a parity, by the parities of all.
pub(crate) fn lacking(code: Code, odd: bool, parities: u64) -> u64
    requires { parities < 2 ^ size (projection code) }
    ensures { (l : List Bool) → length l ≡ size (projection code) → parities ≡ mask l → result ≡ mask (map (λ b. odd ⊻ b) l) }
{
    if odd {
        return (1 << code.columns()) - 1 - parities;
    }
    parities
}

// Whether the first column is odd, by the parities of all.
pub(crate) fn is_first_odd(parities: u64) -> bool
    ensures { result ≡ has_bit 0 parities }
{
    parities % 2 == 1
}

impl Code {
    // One walk over the columns of a word: what mending and strict reading know of its parities, its top row and its syndrome. Bits above the code's
    // width are left out.
    #[inline(always)]
    pub fn walk(self, word: u64) -> Walk
        ensures { WalkCollects self word result }
    {
        walk_columns(self, unpack(self, word))
    }
}
