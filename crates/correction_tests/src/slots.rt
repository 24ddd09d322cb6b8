// What a slot should hold after calls, and what each call should answer, by the calls alone and never by their answers.
use crate::codewords::codeword;
use crate::picks::pick_all;
use crate::words::{READINGS, Word, bit, steps, width};

// A call that changes a slot.
#[derive(Clone, Copy)]
pub(crate) enum Call {
    // Step and reading.
    Put(u64, u64),
    Clear,
    // Position.
    Flip(u64),
    Mark(u64),
    // Seed and count.
    Load(u32, u64),
}

// A slot that is written: the message that was put last, and its word as calls left it.
#[derive(Clone, Copy)]
pub(crate) struct Written {
    pub message: u64,
    pub word: Word,
}

// A slot; nothing where it was never written, or was cleared.
pub(crate) type Slot = Option<Written>;

// Why a call is refused, by the scope's numbers: the library's enum would be compared with itself.
pub(crate) const NO_SLOT: u64 = 9;

pub(crate) const BLANK: u64 = 11;

const NO_POSITION: u64 = 12;

const TOO_LARGE: u64 = 13;

const TOO_MANY: u64 = 14;

// What a call answers: the number that a load hands back, or a refusal's number.
pub(crate) type Answer = Result<Option<u32>, u64>;

impl Written {
    // After a put: the codeword of the message, whose lowest 12 bits are the reading, and no marks.
    fn put(code: u32, step: u64, reading: u64) -> Result<Written, u64> {
        if steps(code) <= step || READINGS <= reading {
            return Err(TOO_LARGE);
        }
        let message = (step << 12) | reading;
        let word = Word {
            bits: codeword(code, message),
            marks: 0,
        };
        Ok(Written { message, word })
    }

    // After a flip.
    fn flip(mut self, code: u32, position: u64) -> Result<Written, u64> {
        self.word.bits ^= bit(code, position).ok_or(NO_POSITION)?;
        Ok(self)
    }

    // After a mark.
    fn mark(mut self, code: u32, position: u64) -> Result<Written, u64> {
        self.word.marks |= bit(code, position).ok_or(NO_POSITION)?;
        Ok(self)
    }

    // After a load, with the number that is handed back.
    fn load(mut self, code: u32, seed: u32, count: u64) -> Result<(Written, u32), u64> {
        if width(code) < count {
            return Err(TOO_MANY);
        }
        let picks = pick_all(code, seed, count);
        self.word.bits ^= picks.positions;
        Ok((self, picks.number))
    }
}

// What a call makes of a slot, and the number that a load hands back, or its refusal's number.
pub(crate) fn after(slot: Slot, code: u32, call: Call) -> Result<(Slot, Option<u32>), u64> {
    match call {
        Call::Put(step, reading) => Ok((Some(Written::put(code, step, reading)?), None)),
        Call::Clear => Ok((None, None)),
        Call::Flip(position) => Ok((Some(slot.ok_or(BLANK)?.flip(code, position)?), None)),
        Call::Mark(position) => Ok((Some(slot.ok_or(BLANK)?.mark(code, position)?), None)),
        Call::Load(seed, count) => {
            let (written, number) = slot.ok_or(BLANK)?.load(code, seed, count)?;
            Ok((Some(written), Some(number)))
        }
    }
}

// The slot's bytes: its state, its word, its marks, each with the high byte first.
pub(crate) fn bytes(slot: Slot) -> [u8; trace::SLOT] {
    let mut bytes = [0u8; trace::SLOT];
    if let Some(written) = slot {
        bytes[0] = 1;
        bytes[1..6].copy_from_slice(&written.word.bits.to_be_bytes()[3..]);
        bytes[6..].copy_from_slice(&written.word.marks.to_be_bytes()[3..]);
    }
    bytes
}

// The slots are counted by these groups: the sum of a written one against the codeword of its message, from 0 to 10 or above, and blank ones.
#[derive(Clone, Copy, PartialEq, Eq)]
pub(crate) enum Group {
    Sum(u64),
    Above,
    Blank,
}

// The slot's group.
pub(crate) fn group_of(slot: Slot, code: u32) -> Group {
    let Some(written) = slot else {
        return Group::Blank;
    };
    match written.word.sum(codeword(code, written.message)) {
        sum @ 0..=10 => Group::Sum(sum),
        _ => Group::Above,
    }
}
