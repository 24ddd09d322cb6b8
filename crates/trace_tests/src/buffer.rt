// A buffer of 64 bytes, and each call on its first bytes, shown on a line with what it answers and whether any byte changed. A call gives
// a changed buffer back.
ghost use Rattle.std.specs.Prelude.{◌≤◌, ◌<◌};

use crate::show::{Accepted, Answer, Numbers};
use std::io;
use trace::Refusal;

// The bytes, and how many of them a call is lent.
#[derive(Clone, Copy)]
pub(crate) struct Buffer {
    bytes: [u8; 64],
    lent: usize,
    ghost in_bounds: { lent ≤ 64 },
}

// Whether any byte changed.
fn change_of(old: &[u8; 64], new: &[u8; 64]) -> &'static str {
    if old == new {
        "no byte changed"
    } else {
        "changed"
    }
}

impl Buffer {
    // Bytes of one value, all of which a call is lent.
    pub(crate) fn filled(byte: u8) -> Buffer {
        Buffer {
            bytes: [byte; 64],
            lent: 64,
        }
    }

    // The same bytes, of which a call is lent the first ones.
    pub(crate) fn lending(mut self, lent: usize) -> Buffer
        requires { lent ≤ 64 }
    {
        self.lent = lent;
        self
    }

    // With another byte.
    pub(crate) fn with(mut self, at: usize, byte: u8) -> Buffer
        requires { at < 64 }
    {
        self.bytes[at] = byte;
        self
    }

    // The buffer after a call, and what the call answers.
    pub(crate) fn made<T, F: FnOnce(&mut [u8]) -> Result<T, Refusal>>(
        self,
        call: F,
    ) -> (Buffer, Result<T, Refusal>)
        requires { F.IsAlwaysCallable call }
    {
        let mut bytes = self.bytes;
        let answer = call(&mut bytes[..self.lent]);
        let changed = Buffer {
            bytes,
            lent: self.lent,
        };
        (changed, answer)
    }

    // The buffer after a call that is not shown.
    pub(crate) fn after<T: Drop, F: FnOnce(&mut [u8]) -> Result<T, Refusal>>(
        self,
        call: F,
    ) -> Buffer
        requires { F.IsAlwaysCallable call }
    {
        let (changed, _) = self.made(call);
        changed
    }

    // Makes a call, and shows what it answers.
    fn change<T: Accepted + Drop, F: FnOnce(&mut [u8]) -> Result<T, Refusal>>(
        self,
        rt: &impl Print,
        call: F,
    ) -> io::Result<Buffer>
        requires { F.IsAlwaysCallable call }
    {
        let (changed, answer) = self.made(call);
        println!(rt;
            ": {}, {}",
            Answer(answer),
            change_of(&self.bytes, &changed.bytes)
        )?;
        Ok(changed)
    }

    pub(crate) fn make(self, rt: &impl Print, code: u64, slots: u64) -> io::Result<Buffer> {
        print!(rt; "make {code} {slots} in {}", self.lent)?;
        self.change(rt, |b| trace::make(b, code, slots))
    }

    pub(crate) fn put(
        self,
        rt: &impl Print,
        slot: u64,
        step: u64,
        reading: u64,
    ) -> io::Result<Buffer> {
        print!(rt; "put {slot} {step} {reading}")?;
        self.change(rt, |b| trace::put(b, slot, step, reading))
    }

    pub(crate) fn put_list(
        self,
        rt: &impl Print,
        start: u64,
        steps: &[u64],
        readings: &[u64],
    ) -> io::Result<Buffer> {
        print!(rt; "puts {start} {} {}", Numbers(steps), Numbers(readings))?;
        self.change(rt, |b| trace::put_list(b, start, steps, readings))
    }

    pub(crate) fn flip(self, rt: &impl Print, slot: u64, position: u64) -> io::Result<Buffer> {
        print!(rt; "flip {slot} {position}")?;
        self.change(rt, |b| trace::flip(b, slot, position))
    }

    pub(crate) fn mark(self, rt: &impl Print, slot: u64, position: u64) -> io::Result<Buffer> {
        print!(rt; "mark {slot} {position}")?;
        self.change(rt, |b| trace::mark(b, slot, position))
    }

    pub(crate) fn load(
        self,
        rt: &impl Print,
        slot: u64,
        seed: u32,
        count: u64,
    ) -> io::Result<Buffer> {
        print!(rt; "load {slot} {seed} {count}")?;
        self.change(rt, |b| trace::load(b, slot, seed, count))
    }

    pub(crate) fn clear(self, rt: &impl Print, slot: u64) -> io::Result<Buffer> {
        print!(rt; "clear {slot}")?;
        self.change(rt, |b| trace::clear(b, slot))
    }

    pub(crate) fn read(self, rt: &impl Print, slot: u64) -> io::Result<()> {
        println!(rt;
            "read {slot}: {}",
            Answer(trace::read(&self.bytes[..self.lent], slot))
        )
    }

    pub(crate) fn survey(self, rt: &impl Print) -> io::Result<()> {
        println!(rt;
            "survey: {}",
            Answer(trace::survey(&self.bytes[..self.lent]))
        )
    }

    // Ends a line with whether any byte is another than in an earlier buffer.
    pub(crate) fn show_change(self, rt: &impl Print, earlier: Buffer) -> io::Result<()> {
        println!(rt; ", {}", change_of(&earlier.bytes, &self.bytes))
    }

    // The number in five bytes, high byte first.
    fn five(self, at: usize) -> u64
        requires { at < 60 }
    {
        let mut number = [0u8; 8];
        number[3..].copy_from_slice(&self.bytes[at..at + 5]);
        u64::from_be_bytes(number)
    }

    // The word of the last slot of a trace that ends where the bytes do.
    pub(crate) fn last_word(self) -> u64 {
        self.five(46)
    }

    // What that slot holds, on a line.
    pub(crate) fn show_last(self, rt: &impl Print) -> io::Result<()> {
        let state = self.bytes[45];
        let word = self.last_word();
        let marks = self.five(51);
        println!(rt; "the slot holds: state {state}, word {word:010x}, marks {marks:010x}")
    }
}
