// Plays a script of trace calls on one buffer, one line after the other, and writes a line for each.
//
//     # words            nothing, as a blank line
//     buffer 63          lends 63 zero bytes
//     hex 01 02 E4       lends these bytes
//     open FILE          lends the bytes of a file, whose name is the rest of the line
//     save FILE          writes the lent bytes to a file
//     make 1 4           code, slots
//     put 0 74 2385      slot, step, reading
//     puts 1 7,8 100,200 start, steps, readings: lists with commas, `-` for an empty one
//     flip 0 3           slot, position
//     mark 0 35          slot, position
//     load 0 1 3         slot, seed, count: `ok` with the number handed back
//     clear 2            slot
//     read 0             slot: `ok` with step, reading, wrong, marks, marked wrong
//     survey             `ok` with blank, read, over, under, lost, bad, sum, smallest, largest, mean; `-` for what is absent
//     bytes              the lent bytes, in hexadecimal
//
// A call that is refused gets `refused` and its number. A line that can't be read, or that lends, opens or saves in vain, gets its number
// and what is wrong with it, and the lent bytes stay. Until something is lent there are none.
#![tactic(auto)]

mod buffer;
mod play;

use buffer::Buffer;
use lines::{LONGEST, Trouble};
use play::{Answer, Line, play, print_trouble};
use script::Held;
use std::io;
use std::rt::Files;

// How far a script is played.
#[derive(Drop)]
struct Progress {
    // The next line, as far as it is taken, and its number.
    held: Held,
    number: u64,
    // The bytes that are lent.
    buffer: Buffer,
    // The last answer: each is written in place of the one before it.
    answer: Answer,
}

// Plays the line that is held, and begins the next one.
fn play_held(rt: &(impl Files + Print + Eprint), p: &mut Progress) {
    let number = p.number;
    match &p.held.line {
        Some(text) => {
            let line = Line {
                number,
                text: text.as_slice(),
            };
            play(rt, line, &mut p.buffer, &mut p.answer);
        }
        None => {
            let reason = b"more than 200000 bytes";
            print_trouble(rt, number, Trouble::Unreadable, reason, &mut p.answer);
        }
    }
    p.held.clear();
    p.number = number.saturating_add(1);
}

// Takes the next bytes of a script: each is held, or ends the line that is held, which is played.
fn take(rt: &(impl Files + Print + Eprint), bytes: &[u8], p: &mut Progress) {
    for byte in bytes {
        if *byte == b'\n' {
            play_held(rt, p);
        } else {
            p.held.hold(*byte);
        }
    }
}

// Takes standard input as it comes, until it ends or can't be read. A proved loop has to end, so this one counts its reads up to a number that
// no run reaches.
fn take_input(rt: &(impl io::Input + Files + Print + Eprint), p: &mut Progress) {
    let mut input = [0u8; LONGEST];
    for _ in 0..u64::MAX {
        let Ok(n) = files::read_next(rt, &mut input) else {
            // What is held is no whole line.
            p.held.clear();
            return;
        };
        if n == 0 {
            return;
        }
        take(rt, &input[..n], p);
    }
}

fn main(rt: HostRuntime) {
    let mut progress = Progress {
        held: Held::new(),
        number: 1,
        buffer: Buffer::new(),
        answer: Answer::new(),
    };
    take_input(&rt, &mut progress);
    // The last line may be without a newline.
    if !progress.held.is_empty() {
        play_held(&rt, &mut progress);
    }
}
