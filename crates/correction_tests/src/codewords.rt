// Codewords by the scope's definition alone. Nothing here is the library's: products, check matrices, free columns and the order of a
// message's bits are written out once more.
ghost use Rattle.std.specs.Prelude.{◌<◌};

use crate::words::{columns, message_bits, ones};

// The rows of H. The nine-column matrix has a tenth column of zeros.
type Matrix = [[u8; 10]; 4];

const H_36: Matrix = [
    *b"1000113010",
    *b"0100102310",
    *b"0010231210",
    *b"0001130130",
];

const H_40: Matrix = [
    *b"1111000000",
    *b"0000111100",
    *b"3210321010",
    *b"2310231001",
];

// The check matrix of a code.
fn matrix(code: u32) -> Matrix {
    if code <= 2 { H_36 } else { H_40 }
}

// The product of a symbol of the matrix, as its digit, and a symbol: 2·2 = 3, 2·3 = 1, 3·3 = 2.
fn product(digit: u8, symbol: u64) -> u64 {
    match digit {
        b'0' => 0,
        b'1' => symbol,
        b'2' => match symbol {
            0 => 0,
            1 => 2,
            2 => 3,
            _ => 1,
        },
        _ => match symbol {
            0 => 0,
            1 => 3,
            2 => 1,
            _ => 2,
        },
    }
}

// A row of H times the values: a sum of symbols is their exclusive or.
fn row_times(row: &[u8; 10], values: &[u64; 10]) -> u64 {
    let mut sum = 0;
    for (digit, value) in row.iter().zip(values) {
        sum ^= product(*digit, *value);
    }
    sum
}

// Whether a column, counted from 0, is free: columns 5 to 9, or 1, 2, 3, 5, 6, 7, counted from 1.
fn is_free(code: u32, c: usize) -> bool {
    if code <= 2 {
        4 <= c
    } else {
        c <= 2 || (4 <= c && c <= 6)
    }
}

// The free columns' values, two bits of the message each, in column order above the top bits. The other values are left 0.
fn free_values(code: u32, message: u64) -> [u64; 10] {
    let mut values = [0u64; 10];
    let mut rest = message >> (columns(code) - 1);
    for c in (0..columns(code)).rev() {
        if is_free(code, c) {
            values[c] = rest % 4;
            rest /= 4;
        }
    }
    values
}

// The column that is not free and has a one in a row of H, the only one of its kind in that row.
fn other(code: u32, row: usize) -> usize
    requires { row < 4 }
    ensures { result < 10 }
{
    if code <= 2 {
        return row;
    }
    match row {
        0 => 3,
        1 => 7,
        2 => 8,
        _ => 9,
    }
}

// All columns' values. The syndrome is zero where each other value is the sum of its row over the free columns.
fn values(code: u32, message: u64) -> [u64; 10] {
    let free = free_values(code, message);
    let mut values = free;
    for (row, digits) in matrix(code).iter().enumerate() {
        values[other(code, row)] = row_times(digits, &free);
    }
    values
}

// The top row: the message's lowest 8 or 9 bits, and behind them the bit that makes its parity p (codes 1 and 3) or 0 (codes 2 and 4).
fn top_row(code: u32, p: u64, message: u64) -> u64 {
    let given = if code <= 2 {
        message % 256
    } else {
        message % 512
    };
    let wanted = if code % 2 == 1 { p } else { 0 };
    (given << 1) | ((ones(given) % 2) ^ wanted)
}

// The column with a parity, a value and a top bit. The row that stands for the value has it; rows 1, 2 and 3 together have the value
// 1 + 2 + 3 = 0, so that inverting them changes the parity alone.
fn column(parity: u64, value: u64, top: u64) -> u64 {
    let row = match value {
        0 => 0,
        1 => 4,
        2 => 2,
        _ => 1,
    };
    let column = (top << 3) | row;
    if ones(column) % 2 == parity {
        column
    } else {
        column ^ 7
    }
}

// The codeword of a message.
pub(crate) fn codeword(code: u32, message: u64) -> u64 {
    let m = columns(code);
    let p = (message >> (message_bits(code) - 1)) % 2;
    let values = values(code, message);
    let tops = top_row(code, p, message);
    let mut word: u64 = 0;
    for (c, value) in values[..m].iter().enumerate() {
        word = (word << 4) | column(p, *value, (tops >> (m - 1 - c)) % 2);
    }
    word
}
