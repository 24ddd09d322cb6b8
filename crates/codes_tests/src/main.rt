// Writing and strict reading, tried: the scope's words to try that are no theorems, the words of each free column, and messages there and back.
#![tactic(auto)]

ghost use Rattle.std.specs.Prelude.{◌≤◌, ◌<◌};

use std::io;

// The columns of a code's words, a hexadecimal digit each. It stands in each test program, which takes none of the library's numbers: a crate for it would
// be longer.
fn columns(code: u64) -> usize {
    if code <= 2 { 9 } else { 10 }
}

// Writes a message, and the answer on a line: the word in hexadecimal, or the refusal.
fn write(rt: &impl Print, code: u64, message: u64) -> io::Result<()> {
    let width = columns(code);
    print!(rt; "code {code} writes {message}: ")?;
    match codes::encode(code, message) {
        Ok(word) => println!(rt; "{word:0width$x}"),
        Err(refusal) => println!(rt; "refused {}", refusal.number()),
    }
}

// Writes each message that has a value in one free column and zeros elsewhere, in column order. The free columns' bits stand above the
// top row's.
fn write_free(rt: &impl Print, code: u64, value: u64, tops: u64, columns: u64) -> io::Result<()>
    requires few_tops { tops ≤ 9 }
    requires few_columns { columns ≤ 6 }
{
    for left in (0..columns).rev() {
        write(rt, code, value << (tops + 2 * left))?;
    }
    Ok(())
}

// Reads a word strictly, and the answer on a line: the message, or the refusal.
fn read(rt: &impl Print, code: u64, word: u64) -> io::Result<()> {
    let width = columns(code);
    print!(rt; "code {code} reads {word:0width$x}: ")?;
    match codes::decode(code, word) {
        Ok(message) => println!(rt; "{message}"),
        Err(refusal) => println!(rt; "refused {}", refusal.number()),
    }
}

// Whether a message comes back from its codeword.
fn comes_back(code: u64, message: u64) -> bool {
    codes::encode(code, message).and_then(|word| codes::decode(code, word)) == Ok(message)
}

// Tries the messages of a code below a limit, a stride apart, and writes how many come back.
fn report(rt: &impl Print, code: u64, limit: u64, stride: usize) -> io::Result<()>
    requires { 0 < stride }
{
    let tried = (0..limit).step_by(stride).count();
    let back = (0..limit)
        .step_by(stride)
        .filter(|message| comes_back(code, *message))
        .count();
    println!(rt; "code {code}, messages below {limit}, each {stride}: back {back} of {tried}")
}

fn main(rt: HostRuntime) -> io::Result<()> {
    write(&rt, 1, 524287)?;
    write(&rt, 1, 524288)?;
    write(&rt, 3, 4194303)?;
    write(&rt, 3, 4194304)?;
    write(&rt, 0, 0)?;
    write(&rt, 5, 0)?;
    write(&rt, 1, 18446744073709551615)?;
    write_free(&rt, 1, 1, 8, 5)?;
    write_free(&rt, 2, 2, 8, 5)?;
    write_free(&rt, 3, 1, 9, 6)?;
    write_free(&rt, 4, 3, 9, 6)?;
    read(&rt, 1, 0x777777778)?;
    read(&rt, 2, 0x777777778)?;
    read(&rt, 1, 0xF00000000)?;
    read(&rt, 3, 0xF000000000)?;
    read(&rt, 1, 0x1000000000)?;
    read(&rt, 3, 0x10000000000)?;
    read(&rt, 0, 0)?;
    read(&rt, 5, 0)?;
    read(&rt, 4, 18446744073709551615)?;
    report(&rt, 1, 524288, 1)?;
    report(&rt, 2, 524288, 1)?;
    report(&rt, 3, 4194304, 41)?;
    report(&rt, 4, 4194304, 37)
}
