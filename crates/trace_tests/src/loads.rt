// The worked loads of docs/FORMAT.md, 'The fault load', with the order of their draws, which the public call alone shows: from the same
// slot and seed, the words after a load of i and one of i + 1 differ in the position that is drawn last.
use crate::buffer::Buffer;
use crate::code::Code;
use crate::show::Answer;
use std::io;

// A trace of one slot, which holds message 0: its codeword has no ones.
fn prepared(code: Code) -> Buffer {
    let made = Buffer::filled(0).after(|b| trace::make(b, code.number, 1));
    made.after(|b| trace::put(b, 0, 0, 0))
}

// The slot's word after a load.
fn loaded_word(prepared: Buffer, seed: u32, count: u64) -> u64 {
    prepared
        .after(|b| trace::load(b, 0, seed, count))
        .last_word()
}

// The one position in which two words differ; nothing where they differ in none or in more than one.
fn position_between(code: Code, before: u64, after: u64) -> Option<u64> {
    for position in 0..code.width {
        if before ^ after == 1 << (code.width - 1 - position) {
            return Some(position);
        }
    }
    None
}

// The positions of a load, in the order of their draws.
fn show_positions(
    rt: &impl Print,
    prepared: Buffer,
    code: Code,
    seed: u32,
    count: u64,
) -> io::Result<()> {
    let mut before = loaded_word(prepared, seed, 0);
    for drawn in 1..=count {
        let after = loaded_word(prepared, seed, drawn);
        match position_between(code, before, after) {
            Some(position) => print!(rt; " {position}")?,
            None => print!(rt; " (not one position)")?,
        }
        before = after;
    }
    Ok(())
}

// A load on a line.
fn play(rt: &impl Print, code: Code, seed: u32, count: u64) -> io::Result<()> {
    let b = prepared(code);
    print!(rt; "width {} seed {seed} k {count}: positions", code.width)?;
    if count == 0 {
        print!(rt; " (none)")?;
    }
    show_positions(rt, b, code, seed, count)?;
    let (_, answer) = b.made(|b| trace::load(b, 0, seed, count));
    println!(rt; "; {}", Answer(answer))
}

// The worked loads at the widths that codes have, with each code.
pub(crate) fn play_worked(rt: &impl Print) -> io::Result<()> {
    play(rt, Code::new(1), 0, 5)?;
    play(rt, Code::new(2), 1, 5)?;
    play(rt, Code::new(3), 1, 5)?;
    play(rt, Code::new(4), 12345, 3)?;
    play(rt, Code::new(1), u32::MAX, 4)?;
    play(rt, Code::new(3), 2026, 0)
}
