// A line of a script, played on the lent bytes: its answer is written into a string, in place of what that held, and printed.
ghost use Rattle.std.specs.Prelude.{◌+◌, ◌≤◌};
ghost use Rattle.script.specs.Lists.{most_numbers};

use crate::buffer::Buffer;
use arrayvec::ArrayString;
use lines::{ANSWER, Trouble, done_line, number_line, trouble_line};
use script::{
    Call, Command, NUMBERS, Puts, answer, answer_list, argument, bare, lend, lend_input,
    parse_line, take_lists,
};
use std::rt::Files;

// Where an answer is written.
pub(crate) type Answer = ArrayString<ANSWER>;

// What is asked for in vain.
const TOO_MANY: &[u8] = b"more than 65536 bytes";

// A line of a script, and its number.
#[derive(Clone, Copy)]
pub(crate) struct Line<'a> {
    pub(crate) number: u64,
    pub(crate) text: &'a [u8],
}

// Writes what is wrong with a line of this number.
pub(crate) fn print_trouble(
    rt: &(impl Print + Eprint),
    number: u64,
    trouble: Trouble,
    text: &[u8],
    out: &mut Answer,
) {
    trouble_line(number, trouble, text, out);
    let _ = files::print(rt, out.as_bytes());
}

// Writes `ok`.
fn print_ok(rt: &(impl Print + Eprint), out: &mut Answer) {
    done_line(Ok(()), out);
    let _ = files::print(rt, out.as_bytes());
}

// Writes `ok` and the size of a file.
fn print_size(rt: &(impl Print + Eprint), size: usize, out: &mut Answer) {
    number_line(size as u64, out);
    let _ = files::print(rt, out.as_bytes());
}

// Makes a call on the lent bytes.
fn play_call(rt: &(impl Print + Eprint), call: Call, buffer: &mut Buffer, out: &mut Answer) {
    let lent = buffer.lent;
    let bytes: &mut [u8] = &mut buffer.bytes;
    answer(call, &mut bytes[..lent], out);
    let _ = files::print(rt, out.as_bytes());
}

// Makes a list of puts on the lent bytes: its steps stand at the front of the numbers, and its readings behind them.
fn play_puts(
    rt: &(impl Print + Eprint),
    puts: Puts,
    numbers: &[u64; NUMBERS],
    buffer: &mut Buffer,
    out: &mut Answer,
)
    requires { puts.steps + puts.readings ≤ most_numbers }
{
    let all: &[u64] = numbers;
    let end = puts.steps + puts.readings;
    let lent = buffer.lent;
    let bytes: &mut [u8] = &mut buffer.bytes;
    answer_list(
        puts.start,
        &all[..puts.steps],
        &all[puts.steps..end],
        &mut bytes[..lent],
        out,
    );
    let _ = files::print(rt, out.as_bytes());
}

// Makes the list of puts that a line asks for. No line has more numbers than there is room for.
fn play_list(rt: &(impl Print + Eprint), line: Line, buffer: &mut Buffer, out: &mut Answer) {
    let mut numbers = [0u64; NUMBERS];
    match take_lists(line.text, &mut numbers) {
        Ok(puts) => play_puts(rt, puts, &numbers, buffer, out),
        Err(_) => print_unreadable(rt, line, out),
    }
}

// Lends the bytes that a line asks for.
fn lend_line(rt: &(impl Print + Eprint), line: Line, buffer: &mut Buffer, out: &mut Answer) {
    let Ok(n) = lend(line.text, &mut buffer.bytes) else {
        print_trouble(rt, line.number, Trouble::NotLent, TOO_MANY, out);
        return;
    };
    buffer.lent = n;
    print_ok(rt, out);
}

// Lends the bytes of the file of this name. It is read as far as shows that it is too long.
fn open(
    rt: &(impl Files + Print + Eprint),
    name: &[u8],
    number: u64,
    buffer: &mut Buffer,
    out: &mut Answer,
) {
    let mut input = [0u8; lines::INPUT];
    let Ok(size) = files::read_file(rt, name, &mut input) else {
        print_trouble(rt, number, Trouble::NotRead, name, out);
        return;
    };
    let Ok(n) = lend_input(&input, size, &mut buffer.bytes) else {
        print_trouble(rt, number, Trouble::NotLent, TOO_MANY, out);
        return;
    };
    buffer.lent = n;
    print_size(rt, n, out);
}

// Writes the lent bytes to a file.
fn save(rt: &(impl Files + Print + Eprint), name: &[u8], number: u64, b: &[u8], out: &mut Answer) {
    if files::write_file(rt, name, b).is_err() {
        print_trouble(rt, number, Trouble::NotWritten, name, out);
        return;
    }
    print_size(rt, b.len(), out);
}

// Gives back a line that can't be read, without what is nothing at its ends.
fn print_unreadable(rt: &(impl Print + Eprint), line: Line, out: &mut Answer) {
    print_trouble(rt, line.number, Trouble::Unreadable, bare(line.text), out);
}

// Plays a line.
pub(crate) fn play(
    rt: &(impl Files + Print + Eprint),
    line: Line,
    buffer: &mut Buffer,
    out: &mut Answer,
) {
    let name = argument(line.text);
    match parse_line(line.text) {
        Command::Nothing => (),
        Command::Buffer(_) | Command::Hex => lend_line(rt, line, buffer, out),
        Command::Open => open(rt, name, line.number, buffer, out),
        Command::Save => save(rt, name, line.number, &buffer.bytes[..buffer.lent], out),
        Command::Call(call) => play_call(rt, call, buffer, out),
        Command::PutList => play_list(rt, line, buffer, out),
        Command::Unreadable => print_unreadable(rt, line, out),
    }
}
