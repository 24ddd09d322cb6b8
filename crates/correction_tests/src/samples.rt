// Words that are made up: disturbed codewords, believable faults, and noise. The code and the state of the draws are two arguments: a struct of both would
// be made anew for every draw, and be no plainer.
ghost use Rattle.std.specs.Prelude.{◌≤◌, ◌<◌};

use crate::codewords::codeword;
use crate::draws::{another, below, draw, wide};
use crate::words::{Word, columns, message_bits, ones, positions, width};

// Where each kind of sample starts: first words around codewords, then words whose marks stand on ones or on zeros, believable faults,
// and noise.
pub(crate) const FILLED: usize = 44;

pub(crate) const FAULTS: usize = FILLED + 24;

pub(crate) const NOISE: usize = FAULTS + 2 * KINDS;

// How many samples there are.
pub(crate) const SAMPLES: usize = NOISE + 54;

// The kinds of believable faults.
const KINDS: usize = 20;

// So many ones of a word, the first ones at the places start, start + 7, start + 14 and so on, counted around the width.
fn some_ones(code: u32, word: u64, start: u32, count: u64) -> u64 {
    let width = width(code);
    let mut bits = 0;
    for i in 0..width {
        if ones(bits) < count {
            bits |= word & (1 << ((u64::from(start) + 7 * i) % width));
        }
    }
    bits
}

// A codeword with so many wrong bits and so many marks, which stand on ones of `under`; half of the marked bits are inverted.
fn disturbed(code: u32, codeword: u64, under: u64, start: u32, wrong: u64, marked: u64) -> Word {
    let marks = some_ones(code, under, start, marked);
    let inverted = some_ones(code, marks, start, marked / 2);
    let errors = some_ones(code, positions(code) ^ marks, start, wrong);
    Word {
        bits: codeword ^ inverted ^ errors,
        marks,
    }
}

// The codeword of a drawn message.
fn drawn_codeword(code: u32, state: u32) -> u64 {
    codeword(code, wide(state, message_bits(code)))
}

// Four words for each sum from 0 to 10 around a codeword, with no to three wrong bits and marks anywhere.
fn around_codeword(code: u32, j: u64, state: u32) -> Word {
    let sum = j % 11;
    let wrong = (j / 11).min(sum / 2);
    disturbed(
        code,
        drawn_codeword(code, state),
        positions(code),
        state,
        wrong,
        sum - 2 * wrong,
    )
}

// Eight words for each sum from 7 to 9, with no to three wrong bits. All marks stand on ones of the codeword, or all on zeros: filled
// with these the word has at most three wrong bits, and yet the codeword is not near where the sum is 8 or 9.
fn filled(code: u32, j: u64, state: u32) -> Word {
    let codeword = drawn_codeword(code, state);
    let under = if j % 2 == 0 {
        codeword
    } else {
        positions(code) ^ codeword
    };
    let sum = 7 + j / 2 % 3;
    let wrong = j / 6 % 4;
    disturbed(code, codeword, under, state, wrong, sum - 2 * wrong)
}

// The kinds of faults in two columns: the bits that are inverted, and the marks.
const FAULT_KINDS: [(u64, u64); KINDS] = [
    // Equal parities and a zero syndrome, and no codeword.
    (0xF0, 0x00),
    // Two wrong bits in one column. The other two have the same value together: the top row decides.
    (0xC0, 0x00),
    (0xA0, 0x00),
    (0x90, 0x00),
    (0x60, 0x00),
    (0x50, 0x00),
    (0x30, 0x00),
    // The same with a third wrong bit.
    (0xC1, 0x00),
    (0x38, 0x00),
    // Equal parities and a syndrome that is no multiple of a column.
    (0x33, 0x00),
    (0xC3, 0x00),
    // Three wrong bits in a column, and no, one or two marks beside them.
    (0xE0, 0x00),
    (0xE0, 0x08),
    (0xE0, 0x0C),
    // Flips under marks: all marked bits, or some.
    (0xF0, 0xF0),
    (0xFE, 0xFE),
    (0xC8, 0x08),
    // Marks alone.
    (0x00, 0xFE),
    (0x00, 0xFF),
    // Nearer to another codeword.
    (0x1F, 0x00),
];

// A codeword with a fault in two columns, behind which so many columns stand.
fn with_fault(codeword: u64, kind: usize, behind: u64) -> Word
    requires known { kind < 20 }
    requires in_word { behind ≤ 8 }
{
    let (inverted, marks) = FAULT_KINDS[kind];
    Word {
        bits: codeword ^ (inverted << (4 * behind)),
        marks: marks << (4 * behind),
    }
}

// Each fault in the first two columns of the codeword 0, and again in columns of a codeword that are drawn.
fn faulty(code: u32, j: usize, state: u32) -> Word {
    let most = (columns(code) - 2) as u64;
    if j < KINDS {
        return with_fault(0, j, most);
    }
    with_fault(
        drawn_codeword(code, state),
        j % KINDS,
        below(draw(state), most + 1),
    )
}

// A word of any bits, under no to eight marks.
fn noise(code: u32, j: u64, state: u32) -> Word {
    let width = width(code);
    Word {
        bits: wide(state, width),
        marks: some_ones(code, wide(another(state), width), state, j % 9),
    }
}

// A sample, by its number.
fn sample_at(code: u32, j: usize, state: u32) -> Word {
    if j < FILLED {
        return around_codeword(code, j as u64, state);
    }
    if j < FAULTS {
        return filled(code, (j - FILLED) as u64, state);
    }
    if j < NOISE {
        return faulty(code, j - FAULTS, state);
    }
    noise(code, (j - NOISE) as u64, state)
}

// The samples of a code.
pub(crate) fn samples(code: u32) -> [Word; SAMPLES] {
    let mut samples = [Word { bits: 0, marks: 0 }; SAMPLES];
    let mut state = another(code);
    for (j, sample) in samples.iter_mut().enumerate() {
        *sample = sample_at(code, j, state);
        state = another(state);
    }
    samples
}
