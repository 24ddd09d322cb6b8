// The trace calls, tried: each refusal, also where a later one applies too, and the boundaries of every number; whether any byte changed;
// surveys; the worked loads; and lists of puts.
#![tactic(auto)]

mod buffer;
mod code;
mod lists;
mod loads;
mod show;

ghost use Rattle.std.specs.Prelude.{◌≤◌};

use buffer::Buffer;
use code::Code;
use show::Answer;
use std::io;

// A trace with so many slots, in a buffer of so many bytes and no larger.
fn make_large(rt: &impl Print, length: usize, slots: u64) -> io::Result<()>
    requires { length ≤ 44019 }
{
    let mut b = [0u8; 44019];
    println!(rt;
        "make {slots} slots in {length}: {}",
        Answer(trace::make(&mut b[..length], 4, slots))
    )
}

// All calls on a slot of a trace; a load of no positions, and one of as many as `count` says.
fn every_call(rt: &impl Print, b: Buffer, slot: u64, position: u64, count: u64) -> io::Result<()> {
    b.put(rt, slot, 0, 0)?;
    b.clear(rt, slot)?;
    b.flip(rt, slot, position)?;
    b.mark(rt, slot, position)?;
    b.load(rt, slot, 0, 0)?;
    b.load(rt, slot, u32::MAX, count)?;
    b.read(rt, slot)?;
    b.survey(rt)
}

// Refusals 1, 6 and 7 of making, in order.
fn makings(rt: &impl Print) -> io::Result<()> {
    let b = Buffer::filled(255);
    b.make(rt, 0, 0)?;
    b.make(rt, 5, 0)?;
    b.lending(7).make(rt, 1, 0)?;
    b.lending(18).make(rt, 1, 1)?;
    b.lending(19).make(rt, 1, 1)?;
    b.make(rt, 4, 5)?;
    b.lending(63).make(rt, 4, 5)?;
    b.lending(62).make(rt, 4, 5)?;
    b.make(rt, u64::MAX, u64::MAX)?;
    b.make(rt, 4, u64::MAX)?;
    Ok(())
}

// The most slots, and the bytes that they need.
fn large_makings(rt: &impl Print) -> io::Result<()> {
    make_large(rt, 44008, 4000)?;
    make_large(rt, 44007, 4000)?;
    make_large(rt, 44019, 4001)?;
    make_large(rt, 8, 0)
}

// Refusal 8: each byte of a trailer of 2 slots spoilt. Code 4 is no fault.
fn spoilt_trailers(rt: &impl Print, b: Buffer) -> io::Result<()> {
    b.with(56, 1).survey(rt)?;
    b.with(57, 1).survey(rt)?;
    b.with(58, 1).survey(rt)?;
    b.with(59, 21).survey(rt)?;
    b.with(60, 1).survey(rt)?;
    b.with(61, 0).survey(rt)?;
    b.with(61, 3).survey(rt)?;
    b.with(62, 0).survey(rt)?;
    b.with(62, 4).survey(rt)?;
    b.with(62, 5).survey(rt)?;
    b.with(63, 0).survey(rt)?;
    b.with(63, 2).survey(rt)
}

// Refusals 7 and 8: the shortest buffers, a spoilt trailer, and 5 slots with the right distance of 55, but 54 bytes before the trailer.
fn trailers(rt: &impl Print) -> io::Result<()> {
    let b = Buffer::filled(255).make(rt, 1, 2)?;
    every_call(rt, b.lending(7), u64::MAX, u64::MAX, u64::MAX)?;
    every_call(rt, b.lending(8), u64::MAX, u64::MAX, u64::MAX)?;
    spoilt_trailers(rt, b)?;
    let distance = Buffer::filled(0).with(57, 55);
    let count = distance.with(59, 5);
    let code = count.with(60, 1);
    code.with(61, 1).lending(62).survey(rt)
}

// Refusal 13: slot 1 is written.
fn large_numbers(rt: &impl Print, w: Buffer, code: Code) -> io::Result<()> {
    w.put(rt, 1, code.steps, 4096)?;
    w.put(rt, 1, code.steps, 0)?;
    w.put(rt, 1, 0, 4096)?;
    w.put(rt, 1, u64::MAX, u64::MAX)?;
    w.read(rt, 1)
}

// Refusal 12: slot 1 is written.
fn positions(rt: &impl Print, w: Buffer, code: Code) -> io::Result<()> {
    w.flip(rt, 1, code.width - 1)?;
    w.flip(rt, 1, code.width)?;
    w.mark(rt, 1, code.width - 1)?;
    w.mark(rt, 1, code.width)?;
    w.flip(rt, 1, u64::MAX)?;
    Ok(())
}

// Refusal 14: slot 1 is written.
fn counts(rt: &impl Print, w: Buffer, seed: u32, code: Code) -> io::Result<()> {
    w.load(rt, 1, seed, 0)?;
    w.load(rt, 1, seed, 1)?;
    w.load(rt, 1, seed, code.width)?;
    w.load(rt, 1, seed, code.width + 1)?;
    w.load(rt, 1, seed, u64::MAX)?;
    Ok(())
}

// A load of slot 1, which is written and marked, and the same load again, which leaves the bytes of before.
fn load_twice(rt: &impl Print, marked: Buffer, count: u64) -> io::Result<()> {
    let loaded = marked.load(rt, 1, 1, count)?;
    loaded.show_last(rt)?;
    let twice = loaded.load(rt, 1, 1, count)?;
    twice.show_last(rt)?;
    print!(rt; "after both loads")?;
    twice.show_change(rt, marked)
}

// Loads under marks, which stay: slot 1 is written.
fn loads_under_marks(rt: &impl Print, w: Buffer, code: Code) -> io::Result<()> {
    let marked = w.mark(rt, 1, 0)?.mark(rt, 1, code.width - 1)?;
    marked.show_last(rt)?;
    load_twice(rt, marked, 3)?;
    load_twice(rt, marked, code.width)
}

// Refusal 10: slot 1, which begins at byte 45, has another state, or is blank and not zero.
fn bad_slots(rt: &impl Print, w: Buffer, code: Code) -> io::Result<()> {
    every_call(rt, w.with(45, 2), 1, code.width, code.width + 1)?;
    every_call(rt, w.with(45, 0), 1, code.width, code.width + 1)
}

// Refusals 9 to 14, each also where later ones apply.
fn slots(rt: &impl Print, code: Code) -> io::Result<()> {
    let b = Buffer::filled(255).make(rt, code.number, 2)?;
    every_call(rt, b, 2, u64::MAX, u64::MAX)?;
    every_call(rt, b, u64::MAX, 0, 1)?;
    every_call(rt, b, 1, code.width, code.width + 1)?;
    every_call(rt, b.with(55, 1), 1, 0, 1)?;
    let w = b.put(rt, 1, code.steps - 1, 4095)?;
    large_numbers(rt, w, code)?;
    positions(rt, w, code)?;
    counts(rt, w, 0, code)?;
    counts(rt, w, u32::MAX, code)?;
    loads_under_marks(rt, w, code)?;
    bad_slots(rt, w, code)
}

// Each unused bit of word and marks, where there are any: slot 0 begins at byte 45, its word at 46, its marks at 51.
fn unused_bits(rt: &impl Print, code: u64) -> io::Result<()> {
    let b = Buffer::filled(0).make(rt, code, 1)?.put(rt, 0, 0, 0)?;
    for bit in [16, 32, 64, 128] {
        b.with(46, bit).read(rt, 0)?;
    }
    for bit in [16, 32, 64, 128] {
        b.with(51, bit).read(rt, 0)?;
    }
    every_call(rt, b.with(46, 16), 0, 0, 1)
}

// A flip, a flip under a mark, a second mark, and the flip taken back. Leaves the slot with the flip alone.
fn under_marks(rt: &impl Print, b: Buffer) -> io::Result<Buffer> {
    let one = b.flip(rt, 0, 0)?;
    one.read(rt, 0)?;
    let marked = one.mark(rt, 0, 0)?;
    marked.read(rt, 0)?;
    let twice = marked.mark(rt, 0, 0)?;
    twice.flip(rt, 0, 0)?.read(rt, 0)?;
    Ok(one)
}

// Sums of 6, 7 and 8, and what is written over them.
fn sums(rt: &impl Print, one: Buffer) -> io::Result<()> {
    let two = one.flip(rt, 0, 5)?;
    let three = two.flip(rt, 0, 10)?;
    three.read(rt, 0)?;
    three.flip(rt, 0, 30)?.read(rt, 0)?;
    let seven = three.mark(rt, 0, 20)?;
    seven.read(rt, 0)?;
    seven.mark(rt, 0, 21)?.read(rt, 0)?;
    seven.put(rt, 0, 1, 4094)?.read(rt, 0)?;
    seven.clear(rt, 0)?.survey(rt)
}

// Reads of a slot that is written, damaged, marked and written again.
fn reads(rt: &impl Print, code: u64) -> io::Result<()> {
    let b = Buffer::filled(0).make(rt, code, 1)?.put(rt, 0, 74, 2385)?;
    b.read(rt, 0)?;
    sums(rt, under_marks(rt, b)?)
}

// A put, and a survey after it.
fn put_and_survey(
    rt: &impl Print,
    buffer: Buffer,
    slot: u64,
    step: u64,
    reading: u64,
) -> io::Result<Buffer> {
    let b = buffer.put(rt, slot, step, reading)?;
    b.survey(rt)?;
    Ok(b)
}

// Surveys: nothing read; 4095, 0, 4094 and 1; a mean that rounds down; a mended 0; lost and bad slots.
fn surveys(rt: &impl Print) -> io::Result<()> {
    let b = Buffer::filled(0).make(rt, 3, 5)?;
    b.survey(rt)?;
    let over = put_and_survey(rt, b, 0, 1, 4095)?;
    let under = put_and_survey(rt, over, 1, 1, 0)?;
    let high = put_and_survey(rt, under, 2, 1023, 4094)?;
    let odd = put_and_survey(rt, high, 3, 5, 1)?;
    let two = odd.flip(rt, 1, 0)?.flip(rt, 1, 1)?;
    two.survey(rt)?;
    let lost = two.flip(rt, 1, 2)?.flip(rt, 1, 3)?;
    lost.survey(rt)?;
    lost.with(23, 7).survey(rt)
}

fn main(rt: HostRuntime) -> io::Result<()> {
    makings(&rt)?;
    large_makings(&rt)?;
    trailers(&rt)?;
    for number in 1..=4 {
        slots(&rt, Code::new(number))?;
    }
    for code in 1..=3 {
        unused_bits(&rt, code)?;
    }
    for code in 1..=4 {
        reads(&rt, code)?;
    }
    surveys(&rt)?;
    loads::play_worked(&rt)?;
    for number in 1..=4 {
        lists::play_lists(&rt, Code::new(number))?;
    }
    Ok(())
}
