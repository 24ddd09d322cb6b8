// The codeword within three positions of a word. Where a column's parity is not the codeword's, one of its four rows is wrong: each is
// tried. What is left is read from the syndrome: nothing, one wrong bit in the last such column, or two wrong bits in one column, of which the top
// row says which two.
//
// Columns are counted from 0, and some of them are given as a mask, the first column lowest.
ghost use Rattle.std.specs.Prelude.{◌≡◌, ℕ, ◌^◌, ◌<◌, Bool, List, [], ◌∷◌, nat_lt};
ghost use Rattle.codes.specs.Digits.{mask};
ghost use Rattle.codes.specs.Projection.{count, size, width};
ghost use Rattle.codes.specs.Codes.{projection};
ghost use Rattle.codes.specs.Word.{is_codeword_of, is_codeword};
ghost use Rattle.codes.specs.ContractsOfSearch.{inverted, cleared, Masks, FirstOf, row_inverted, Begun, Within, Sought, Solved, SolvedByRows};

use crate::code::Code;
use crate::table::{entry, multiple, multiples};
use crate::word::lacking;

// A column's rows are tried from the top one on.
const TOP_ROW: u8 = 0;

// A word that is tried under a code: its packed syndrome, and whether its top row's parity is not the codeword's.
// A column of its matrix goes by its number: a type for one would have to name the code, too, and be no plainer.
#[derive(Clone, Copy)]
pub(crate) struct Trial {
    pub code: Code,
    pub word: u64,
    pub syndrome: u8,
    pub off: bool,
}

impl Trial {
    // The word with bits of one column inverted.
    fn inverted(self, column: usize, bits: u8) -> u64
        requires { (column < size (projection self.code)) × (bits < 16) }
        ensures { result ≡ inverted (projection self.code) self.word column bits }
    {
        self.word ^ (u64::from(bits) << (4 * (self.code.columns() - 1 - column)))
    }

    // The trial with one row of a column inverted.
    fn with_row(self, column: usize, row: u8) -> Trial
        requires { (column < size (projection self.code)) × (row < 4) }
        ensures { result ≡ row_inverted (projection self.code) self column row }
    {
        Trial {
            code: self.code,
            word: self.inverted(column, 8 >> row),
            syndrome: self.syndrome ^ multiple(multiples(self.code, column), row),
            off: self.off ^ (row == 0),
        }
    }

    // What is found with a row of a column inverted, by the first row that finds something.
    #[inline(always)]
    fn by_rows<F: Fn(Trial) -> Option<u64>>(self, column: usize, find: F) -> Option<u64>
        requires column { column < size (projection self.code) }
        requires callable { (row : ℕ) → row < 4 → F.pre find (row_inverted (projection self.code) self column row) }
        ensures { SolvedByRows (projection self.code) self column (λ t r. F.post find t r) result }
    {
        for row in TOP_ROW..4 {
            if let Some(found) = find(self.with_row(column, row)) {
                return Some(found);
            }
        }
        None
    }

    // The codeword that follows from the syndrome, within two or three positions where all columns have the codeword's parity: the word, or the word with
    // two bits of one column inverted.
    fn by_syndrome(self) -> Option<u64>
        ensures { Solved (projection self.code) [] 2 self result }
    {
        if self.syndrome == 0 {
            if self.off {
                return None;
            }
            return Some(self.word);
        }
        // An entry is a number, and 0 where there is none: with an Option the table would have two bytes for each, and the test would stay.
        let named = entry(self.code, self.syndrome);
        if named == 0 {
            return None;
        }
        let pair = symbols::column_with(false, named % 4, self.off);
        Some(self.inverted((named / 4 - 1) as usize, pair))
    }

    // The codeword within two positions where column j alone lacks its parity: it is one position away.
    fn in_column(self, j: usize) -> Option<u64>
        requires { j < size (projection self.code) }
        ensures { Solved (projection self.code) (j ∷ []) 1 self result }
    {
        if self.off {
            if self.syndrome == 0 {
                return Some(self.inverted(j, 8));
            }
            return None;
        }
        let scales = multiples(self.code, j);
        for row in 1..4 {
            if self.syndrome == multiple(scales, row) {
                return Some(self.inverted(j, 8 >> row));
            }
        }
        None
    }

    // The codeword within three positions where column i alone lacks its parity.
    fn seek_one(self, i: usize) -> Option<u64>
        requires { i < size (projection self.code) }
        ensures { Solved (projection self.code) (i ∷ []) 3 self result }
    {
        if let Some(near) = self.in_column(i) {
            return Some(near);
        }
        self.by_rows(i, |t| t.by_syndrome())
    }

    // The codeword two positions away where columns i and j lack its parity.
    #[inline(always)]
    fn seek_two(self, i: usize, j: usize) -> Option<u64>
        requires { (i < size (projection self.code)) × (j < size (projection self.code)) }
        ensures { Solved (projection self.code) (i ∷ j ∷ []) 2 self result }
    {
        self.by_rows(i, |t| t.in_column(j))
    }

    // The codeword three positions away where columns i, j and k lack its parity.
    fn seek_three(self, i: usize, j: usize, k: usize) -> Option<u64>
        requires { (i < size (projection self.code)) × (j < size (projection self.code)) × (k < size (projection self.code)) }
        ensures { Solved (projection self.code) (i ∷ j ∷ k ∷ []) 3 self result }
    {
        self.by_rows(i, |t| t.seek_two(j, k))
    }

    // The codeword within three positions, by the mask of the columns that lack its parity.
    fn seek(self, lacking: u64) -> Option<u64>
        requires { (p : Bool) × Begun (projection self.code) p lacking self }
        ensures { (p : Bool) → Begun (projection self.code) p lacking self → Sought (Within (projection self.code) (is_codeword_of (projection self.code) p) 3 self.word) result }
    {
        if has_four(lacking) {
            return None;
        }
        if lacking == 0 {
            return self.by_syndrome();
        }
        let i = first_column(self.code, lacking);
        let others = without_first(lacking);
        if others == 0 {
            return self.seek_one(i);
        }
        let j = first_column(self.code, others);
        let last = without_first(others);
        if last == 0 {
            return self.seek_two(i, j);
        }
        self.seek_three(i, j, first_column(self.code, last))
    }
}

// The first column of a mask.
fn first_column(code: Code, columns: u64) -> usize
    requires { Masks (projection code) columns }
    ensures { (result < size (projection code)) × FirstOf (projection code) columns result }
{
    columns.trailing_zeros() as usize
}

// A mask without its first column.
fn without_first(columns: u64) -> u64
    ensures { (l : List Bool) → columns ≡ mask l → result ≡ mask (cleared l) }
{
    columns & columns.wrapping_sub(1)
}

// Whether a mask has more than three columns.
fn has_four(columns: u64) -> bool
    ensures { (l : List Bool) → columns ≡ mask l → result ≡ nat_lt 3 (count l) }
{
    without_first(without_first(without_first(columns))) != 0
}

// The codeword within three positions of a word. At most three columns lack its parity, so of seven columns or more it is odd where more than three
// are odd, and else even.
pub(crate) fn within_three(code: Code, word: u64) -> Option<u64>
    requires { word < 2 ^ width (projection code) }
    ensures { Sought (Within (projection code) (is_codeword (projection code)) 3 word) result }
{
    let walk = code.walk(word);
    let odd = has_four(walk.parities);
    let trial = Trial {
        code,
        word,
        syndrome: walk.syndrome,
        off: walk.top ^ code.top_parity(odd),
    };
    trial.seek(lacking(code, odd, walk.parities))
}
