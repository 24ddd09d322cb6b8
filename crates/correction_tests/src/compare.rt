// The library's answers, compared with what the search found, and with what the calls say.
ghost use Rattle.std.specs.Prelude.{◌≤◌, length};

use crate::codewords::codeword;
use crate::lists::{ALL, Left};
use crate::search::{Near, Tried};
use crate::slots::{Answer, BLANK, Call, Group, group_of};
use crate::words::{READINGS, Word, ones};
use trace::Reading;

// Why a word call is refused, by the scope's numbers: a case of the library's enum would be compared with itself.
const NOT_A_CODEWORD: u64 = 4;

const NONE_NEAR: u64 = 5;

// Another answer was given than the right one.
#[derive(Clone, Copy, PartialEq, Eq)]
pub(crate) struct Disagrees;

// What the right answer says, where it was given.
pub(crate) type Outcome<T> = Result<T, Disagrees>;

// What a call answered: three cases that are counted apart, which no nested Option says more plainly.
#[derive(Clone, Copy, PartialEq, Eq)]
pub(crate) enum Answered {
    Accepted,
    // A load was accepted, of so many positions.
    Loaded(u64),
    // The refusal's number.
    Refused(u64),
}

// The outcome of an answer, by whether it is the right one.
fn outcome<T: Copy>(agrees: bool, answered: T) -> Outcome<T> {
    if agrees { Ok(answered) } else { Err(Disagrees) }
}

// The outcome of a call, which is right where its answer is, and all slots' bytes after it.
pub(crate) fn call_outcome(
    call: Call,
    answer: Answer,
    due: Answer,
    bytes_agree: bool,
) -> Outcome<Answered> {
    let answered = match (due, call) {
        (Err(refusal), _) => Answered::Refused(refusal),
        (Ok(_), Call::Load(_, count)) => Answered::Loaded(count),
        (Ok(_), _) => Answered::Accepted,
    };
    outcome(answer == due && bytes_agree, answered)
}

// The outcome of `correct`: the sum of the near codeword that the search found, or nothing where it found none.
pub(crate) fn correct_outcome(code: u32, tried: Tried) -> Outcome<Option<u64>> {
    let word = tried.word;
    let answer = codes::correct(u64::from(code), word.bits, word.marks);
    match (answer, tried.near) {
        (Ok(c), Near::One(message)) => {
            let agrees = c.message == message
                && c.codeword == codeword(code, message)
                && c.wrong == word.wrong(c.codeword)
                && c.marks == ones(word.marks)
                && c.marked_wrong == word.marked_wrong(c.codeword);
            outcome(agrees, Some(word.sum(c.codeword)))
        }
        (Err(refusal), Near::None) => outcome(refusal.number() == NONE_NEAR, None),
        _ => Err(Disagrees),
    }
}

// The outcome of `decode`: whether the word is a codeword, which it is where the search found one equal to it.
pub(crate) fn decode_outcome(code: u32, tried: Tried) -> Outcome<bool> {
    let answer = codes::decode(u64::from(code), tried.word.bits);
    match (answer, tried.equal) {
        (Ok(message), Some(equal)) => outcome(message == equal, true),
        (Err(refusal), None) => outcome(refusal.number() == NOT_A_CODEWORD, false),
        _ => Err(Disagrees),
    }
}

// Whether a read gives a message, at its word.
fn is_reading(reading: Reading, code: u32, message: u64, word: Word) -> bool {
    let codeword = codeword(code, message);
    reading.step == message / READINGS
        && reading.reading == message % READINGS
        && reading.wrong == word.wrong(codeword)
        && reading.marks == ones(word.marks)
        && reading.marked_wrong == word.marked_wrong(codeword)
}

// The outcome of a read: the slot's group, where the read gives what the search found, or the refusal of a blank slot.
fn read_outcome(code: u32, left: Left, near: Near) -> Outcome<Group> {
    let agrees = match (left.read, left.slot, near) {
        (Ok(reading), Some(written), Near::One(message)) => {
            is_reading(reading, code, message, written.word)
        }
        (Err(refusal), Some(_), Near::None) => refusal.number() == NONE_NEAR,
        (Err(refusal), None, _) => refusal.number() == BLANK,
        _ => false,
    };
    outcome(agrees, group_of(left.slot, code))
}

// The outcome of a read of each slot: the slot's group.
pub(crate) fn read_outcomes(code: u32, left: &[Left], tried: &[Tried]) -> [Outcome<Group>; ALL] {
    let mut outcomes = [Err(Disagrees); ALL];
    for (outcome, (left, tried)) in outcomes.iter_mut().zip(left.iter().zip(tried)) {
        *outcome = read_outcome(code, *left, tried.near);
    }
    outcomes
}

// How many of the outcomes are a certain one.
pub(crate) fn count<T: PartialEq>(outcomes: &[T], wanted: &T) -> usize
    ensures { result ≤ length outcomes.now }
{
    outcomes.iter().filter(|outcome| *outcome == wanted).count()
}
