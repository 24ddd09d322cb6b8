// The four symbols and the columns of four bits that the codes are made of.
//
// A symbol is a number modulo 4 and a column a number modulo 16, top bit highest, so that every function
// answers every number. Each looks its answer up in a table, which but for `VALUES` is packed into one number, or is plain arithmetic.
#![tactic(auto)]

ghost use Rattle.std.specs.Prelude.{◌≡◌};
ghost use Rattle.symbols.specs.Symbol.{symbol_number, symbol_of, add, mul};
ghost use Rattle.symbols.specs.Column.{value, parity, top, one, weight, column_of, column_number, column_with};

// The products of two symbols: two bits for each pair, at 4 times the first plus the second.
const PRODUCTS: u32 = 0x9c78_e400;

// The sixteen columns' values. The walk over a word looks one up for each column, and a shift of a packed number is slower there.
const VALUES: [u8; 16] = [0, 3, 2, 1, 1, 2, 3, 0, 0, 3, 2, 1, 1, 2, 3, 0];

// The sixteen columns' weights: three bits each.
const WEIGHTS: u64 = 0x8da6_9169_1448;

// The columns by parity, value and top bit: four bits each, at 8 times the parity plus twice the value plus the top bit.
const COLUMNS: u64 = 0xe1d2_b487_96a5_c3f0;

// The sum of two symbols.
pub fn add(x: u8, y: u8) -> u8
    ensures { result ≡ symbol_number (add (symbol_of x) (symbol_of y)) }
{
    (x ^ y) % 4
}

// The product of two symbols.
pub fn multiply(x: u8, y: u8) -> u8
    ensures { result ≡ symbol_number (mul (symbol_of x) (symbol_of y)) }
{
    ((PRODUCTS >> (8 * (x % 4) + 2 * (y % 4))) % 4) as u8
}

// A column's value, a symbol.
pub fn value(column: u8) -> u8
    ensures { result ≡ symbol_number (value (column_of column)) }
{
    VALUES[usize::from(column % 16)]
}

// Whether a column has an odd number of ones.
pub fn parity(column: u8) -> bool
    ensures { result ≡ parity (column_of column) }
{
    (column % 16).count_ones() % 2 == 1
}

// A column's top bit.
pub fn top(column: u8) -> bool
    ensures { result ≡ top (column_of column) }
{
    8 <= column % 16
}

// The number of a column's ones.
pub fn weight(column: u8) -> u8
    ensures { result ≡ weight (column_of column) }
{
    ((WEIGHTS >> (3 * (column % 16))) % 8) as u8
}

// A bit as a number.
pub fn one(bit: bool) -> u8
    ensures { result ≡ one bit }
{
    u8::from(bit)
}

// The column with a given parity, value and top bit.
pub fn column_with(parity: bool, value: u8, top: bool) -> u8
    ensures { result ≡ column_number (column_with parity (symbol_of value) top) }
{
    ((COLUMNS >> (32 * one(parity) + 8 * (value % 4) + 4 * one(top))) % 16) as u8
}
