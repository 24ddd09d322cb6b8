// Listings of standard input, which has one byte more than is listed, and of files that are made here: refused ones, the longest one and
// one byte more, free bytes before the slots, readings at both ends of the range, every status under every code, and the most slots.
#![tactic(auto)]

ghost use Rattle.std.specs.Prelude.{◌≤◌};

use arrayvec::ArrayString;
use lines::TEXT;
use std::io;
use trace::Refusal;

// The listing of a file, which is copied into a buffer, as far as it fits.
fn list_into(file: &[u8], text: &mut ArrayString<TEXT>) {
    let mut input = [0u8; lines::INPUT];
    let size = file.len().min(lines::INPUT);
    input[..size].copy_from_slice(&file[..size]);
    lines::list(&input, size, text);
}

// Writes a file's listing.
fn list(rt: &impl Print, file: &[u8]) -> io::Result<()> {
    let mut text = ArrayString::new();
    list_into(file, &mut text);
    print!(rt; "{text}")
}

// What calls made. None of them is refused here.
fn made<T>(answer: Result<T, Refusal>) -> io::Result<T> {
    answer.map_err(|_| io::Error::other("a call was refused"))
}

// Standard input, read as the program reads it: a trace with free bytes before it, 65,537 bytes in all.
fn standard_input(rt: &(impl io::Input + Print + Eprint)) -> io::Result<()> {
    println!(rt; "standard input of 65537 bytes")?;
    let mut input = [0u8; lines::INPUT];
    let Ok(size) = files::read_input(rt, &mut input) else {
        return Err(io::Error::other("standard input can't be read"));
    };
    let mut text = ArrayString::new();
    lines::list(&input, size, &mut text);
    print!(rt; "{text}")
}

// Files that are too short for a trailer, or end with none.
fn refused_files(rt: &impl Print) -> io::Result<()> {
    println!(rt; "no bytes, seven, and eight that are no trailer")?;
    list(rt, &[])?;
    list(rt, &[0; 7])?;
    list(rt, &[0; 8])
}

// A file of one blank slot behind free bytes: the longest one that is listed, or one byte more.
fn long_file(rt: &impl Print, size: usize) -> io::Result<()>
    requires { size ≤ 65537 }
{
    println!(rt; "{size} bytes")?;
    let mut buffer = [0u8; 65537];
    let file = &mut buffer[..size];
    made(trace::make(file, 2, 1))?;
    list(rt, file)
}

// Bytes before the slots, which are the file's own.
fn free_bytes() -> Result<[u8; 49], Refusal> {
    let mut file = [255; 49];
    trace::make(&mut file, 3, 2)?;
    trace::put(&mut file, 1, 1023, 4094)?;
    Ok(file)
}

// The readings at both ends of the range, which are no pressures, and those beside them; the lowest and the highest are mended, with one wrong bit
// that is not marked and three marks, of which two are on wrong bits.
fn ends_of_range() -> Result<[u8; 63], Refusal> {
    let mut file = [0; 63];
    trace::make(&mut file, 1, 5)?;
    for (slot, reading) in [(0, 0), (1, 1), (2, 4094), (3, 4095)] {
        trace::put(&mut file, slot, 3, reading)?;
    }
    for slot in [0, 3] {
        for position in [0, 1, 2] {
            trace::flip(&mut file, slot, position)?;
        }
        for position in [1, 2, 3] {
            trace::mark(&mut file, slot, position)?;
        }
    }
    Ok(file)
}

// A slot of each status, then one with three wrong bits and one with seven marks.
fn statuses(code: u64, step: u64) -> Result<[u8; 96], Refusal> {
    let mut file = [0; 96];
    trace::make(&mut file, code, 8)?;
    trace::put(&mut file, 1, step, 4094)?;
    trace::put(&mut file, 2, step, 4095)?;
    trace::put(&mut file, 3, step, 0)?;
    trace::put(&mut file, 4, 0, 0)?;
    for position in [0, 1, 2, 3] {
        trace::flip(&mut file, 4, position)?;
    }
    // Slot 5 has a state that is neither blank nor written.
    file[55] = 2;
    trace::put(&mut file, 6, 1, 7)?;
    for position in [5, 6, 35] {
        trace::flip(&mut file, 6, position)?;
    }
    trace::put(&mut file, 7, 2, 8)?;
    for position in [0, 5, 10, 15, 20, 25, 30] {
        trace::mark(&mut file, 7, position)?;
    }
    trace::flip(&mut file, 7, 30)?;
    Ok(file)
}

// As many slots as a trace can have.
fn most_slots(rt: &impl Print) -> io::Result<()> {
    let mut file = [0u8; 44008];
    made(trace::make(&mut file, 4, 4000))?;
    let mut text = ArrayString::new();
    list_into(&file, &mut text);
    println!(rt; "4000 slots: bytes listed {}", text.len())
}

fn main(rt: HostRuntime) -> io::Result<()> {
    standard_input(&rt)?;
    refused_files(&rt)?;
    long_file(&rt, 65536)?;
    long_file(&rt, 65537)?;
    println!(&rt; "nineteen free bytes")?;
    list(&rt, &made(free_bytes())?)?;
    println!(&rt; "0, 1, 4094 and 4095")?;
    list(&rt, &made(ends_of_range())?)?;
    for (code, step) in [(1, 127), (2, 127), (3, 1023), (4, 1023)] {
        println!(&rt; "code {code}")?;
        list(&rt, &made(statuses(code, step))?)?;
    }
    most_slots(&rt)
}
