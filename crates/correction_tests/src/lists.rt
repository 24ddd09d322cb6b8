// Random lists of trace calls, each on a trace of its own: kind, slot and numbers of every call are drawn. Slots, steps, readings,
// positions and counts are drawn beyond their limits too, and blank slots are flipped, marked and loaded, so that refused calls stand
// anywhere. Each call's answer, and the bytes of all slots after it, are compared with what they should be.
use crate::compare::{Answered, Disagrees, Outcome, call_outcome};
use crate::draws::{about, another, below, draw};
use crate::slots::{Answer, Call, NO_SLOT, Slot, after, bytes};
use crate::words::{READINGS, steps, width};
use std::array;
use trace::{Reading, Refusal};

// The lists of a code, and the calls of a list.
pub(crate) const LISTS: usize = 4;

const CALLS: usize = 400;

// With this seed the lists of each code leave slots with every sum from 0 to 10, and some that are read as another message; and loads of no
// to four positions and of all are accepted, and larger ones refused.
const SEED: u32 = 324501;

// The slots of a trace.
const SLOTS: usize = 13;

// The bytes of a trace.
const BYTES: usize = trace::SLOT * SLOTS + trace::TRAILER;

// The slots of all lists.
pub(crate) const ALL: usize = LISTS * SLOTS;

// A slot as it should be after a list of calls, and what a read of it answers.
#[derive(Clone, Copy)]
pub(crate) struct Left {
    pub slot: Slot,
    pub read: Result<Reading, Refusal>,
}

// A list that was played: each call's outcome, and what the list leaves in the slots.
#[derive(Clone, Copy)]
pub(crate) struct List {
    pub calls: [Outcome<Answered>; CALLS],
    pub left: [Left; SLOTS],
}

// A trace, and its slots as they should be.
#[derive(Clone, Copy)]
struct Trial {
    bytes: [u8; BYTES],
    slots: [Slot; SLOTS],
}

// A load's seed, from a number that was drawn: its own draws are then other numbers than those that the list draws.
fn seed(drawn: u32) -> u32 {
    another(drawn)
}

// The call that three drawn numbers give. Of 64 kinds eight put, one clears, four flip anywhere, 24 flip in the first eight positions,
// which lead to another codeword, two load any number of positions, four load no to four, and the others mark.
fn call_from(code: u32, kind: u32, first: u32, second: u32) -> Call {
    match below(kind, 64) {
        0..=7 => Call::Put(about(first, steps(code)), about(second, READINGS)),
        8 => Call::Clear,
        9..=12 => Call::Flip(about(first, width(code))),
        13..=36 => Call::Flip(below(first, 8)),
        37..=38 => Call::Load(seed(first), about(second, width(code) + 1)),
        39..=42 => Call::Load(seed(first), below(second, 5)),
        _ => Call::Mark(about(first, width(code))),
    }
}

impl Trial {
    // A trace of blank slots.
    fn new(code: u32) -> Trial {
        let mut bytes = [0u8; BYTES];
        let _ = trace::make(&mut bytes, u64::from(code), SLOTS as u64);
        Trial {
            bytes,
            slots: [None; SLOTS],
        }
    }

    // Makes a call.
    fn make_call(&mut self, slot: u64, call: Call) -> Answer {
        let b = &mut self.bytes;
        let answer = match call {
            Call::Put(step, reading) => trace::put(b, slot, step, reading).map(|()| None),
            Call::Clear => trace::clear(b, slot).map(|()| None),
            Call::Flip(position) => trace::flip(b, slot, position).map(|()| None),
            Call::Mark(position) => trace::mark(b, slot, position).map(|()| None),
            Call::Load(seed, count) => trace::load(b, slot, seed, count).map(Some),
        };
        answer.map_err(|refusal| refusal.number())
    }

    // What a call should answer. The slot is then as it should be after the call.
    fn due(&mut self, slot: u64, code: u32, call: Call) -> Answer {
        let slot = self.slots.get_mut(slot as usize).ok_or(NO_SLOT)?;
        let (changed, number) = after(*slot, code, call)?;
        *slot = changed;
        Ok(number)
    }

    // Whether the bytes of all slots are as they should be.
    fn bytes_agree(&self) -> bool {
        for (stored, slot) in self.bytes.chunks_exact(trace::SLOT).zip(&self.slots) {
            if stored != bytes(*slot).as_slice() {
                return false;
            }
        }
        true
    }

    // What is in each slot.
    fn left(&self) -> [Left; SLOTS] {
        array::from_fn(|place| Left {
            slot: self.slots[place],
            read: trace::read(&self.bytes, place as u64),
        })
    }
}

// Makes the trace and the calls of a list.
fn play(code: u32, list: u32) -> List {
    let mut trial = Trial::new(code);
    let mut calls = [Err(Disagrees); CALLS];
    let mut state = draw(code).wrapping_add(SEED).wrapping_add(list);
    for outcome in calls.iter_mut() {
        let kind = draw(state);
        let place = draw(kind);
        let first = draw(place);
        let second = draw(first);
        let call = call_from(code, kind, first, second);
        let slot = about(place, SLOTS as u64);
        let answer = trial.make_call(slot, call);
        let due = trial.due(slot, code, call);
        *outcome = call_outcome(call, answer, due, trial.bytes_agree());
        state = second;
    }
    List {
        calls,
        left: trial.left(),
    }
}

// Plays each list of a code.
pub(crate) fn play_all(code: u32) -> [List; LISTS] {
    array::from_fn(|list| play(code, list as u32))
}
