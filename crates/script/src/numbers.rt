// The numbers that words are.
ghost use Rattle.std.specs.Prelude.{◌≡◌, Some, [], MatchOption};
ghost use Rattle.script.specs.Script.{words, digit_on, number_of, numbers_of, numbered};

use crate::words::Words;
use arrayvec::ArrayVec;

// A command has at most this many numbers.
pub(crate) const MOST: usize = 3;

// A number with one more decimal digit, where the byte is one and 64 bits hold the number.
fn with_digit(n: u64, byte: u8) -> Option<u64>
    ensures { result ≡ digit_on n byte }
{
    if !byte.is_ascii_digit() {
        return None;
    }
    n.checked_mul(10)?.checked_add(u64::from(byte - b'0'))
}

// The number whose decimal digits a word is: at least one digit, and nothing else.
pub(crate) fn parse_number(word: &[u8]) -> Option<u64>
    ensures { result ≡ number_of word.now }
{
    if word.is_empty() {
        return None;
    }
    let mut number = 0;
    for byte in word {
        number = with_digit(number, *byte)?;
    }
    Some(number)
}

// The numbers that the words of a text are, where they are no more than a command has.
pub(crate) fn parse_numbers(text: &[u8]) -> Option<ArrayVec<u64, MOST>>
    ensures { MatchOption result (numbered (numbers_of (words text.now)) ≡ [])
        (λ numbers. numbers_of (words text.now) ≡ Some numbers.items) }
{
    let mut numbers = ArrayVec::new();
    for word in Words(text) {
        let number = parse_number(word)?;
        numbers.try_push(number).ok()?;
    }
    Some(numbers)
}
