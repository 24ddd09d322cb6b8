// A line as a command.
ghost use Rattle.std.specs.Prelude.{◌≡◌, Some};
ghost use Rattle.script.specs.Script.{words, put_list_of, hex_bytes, hex_command, file_command, list_command, load_command};
ghost use Rattle.script.specs.Script.{numbered, commands, chosen, spoken, meaning};

use crate::hex::count_pairs;
use crate::lists::count_lists;
use crate::numbers::parse_numbers;
use crate::parts::{bare, skip_blanks, split_word};

// A call on the lent bytes, as a line has it: it has makings and no lists, which a call of `replay` has, so that each is an enum of its own.
#[derive(Clone, Copy)]
pub enum Call {
    // Code and slots.
    Make(u64, u64),
    // Slot, step and reading.
    Put(u64, u64, u64),
    // Slot and position.
    Flip(u64, u64),
    Mark(u64, u64),
    // Slot, seed and count.
    Load(u64, u32, u64),
    // Slot.
    Clear(u64),
    Read(u64),
    Survey,
    // The lent bytes themselves.
    Bytes,
}

// What a line asks for.
#[derive(Clone, Copy)]
pub enum Command {
    // An empty line, or a comment.
    Nothing,
    // So many zero bytes.
    Buffer(u64),
    // The bytes that the argument is in hexadecimal.
    Hex,
    // The file that the argument names.
    Open,
    Save,
    // The list of puts that the argument is.
    PutList,
    Call(Call),
    Unreadable,
}

// A load, where 32 bits hold its seed.
fn load(slot: u64, seed: u64, count: u64) -> Command
    ensures { result ≡ load_command slot seed count }
{
    match u32::try_from(seed) {
        Ok(seed) => Command::Call(Call::Load(slot, seed, count)),
        Err(_) => Command::Unreadable,
    }
}

// The command of this name with these numbers.
fn with_numbers(name: &[u8], numbers: &[u64]) -> Command
    ensures { result ≡ chosen name.now (numbered (Some numbers.now)) }
{
    let is = |word: &[u8]| name == word;
    match numbers {
        [] if is(b"survey") => Command::Call(Call::Survey),
        [] if is(b"bytes") => Command::Call(Call::Bytes),
        [size] if is(b"buffer") => Command::Buffer(*size),
        [slot] if is(b"clear") => Command::Call(Call::Clear(*slot)),
        [slot] if is(b"read") => Command::Call(Call::Read(*slot)),
        [code, slots] if is(b"make") => Command::Call(Call::Make(*code, *slots)),
        [slot, position] if is(b"flip") => Command::Call(Call::Flip(*slot, *position)),
        [slot, position] if is(b"mark") => Command::Call(Call::Mark(*slot, *position)),
        [slot, step, reading] if is(b"put") => Command::Call(Call::Put(*slot, *step, *reading)),
        [slot, seed, count] if is(b"load") => load(*slot, *seed, *count),
        _ => Command::Unreadable,
    }
}

// The command whose argument is bytes in hexadecimal: at least one.
fn with_pairs(argument: &[u8]) -> Command
    ensures { result ≡ hex_command (hex_bytes argument.now) }
{
    let Some(n) = count_pairs(argument) else {
        return Command::Unreadable;
    };
    if n == 0 {
        return Command::Unreadable;
    }
    Command::Hex
}

// A command whose argument is a file's name.
fn with_file(argument: &[u8], command: Command) -> Command
    ensures { result ≡ file_command command argument.now }
{
    if argument.is_empty() {
        return Command::Unreadable;
    }
    command
}

// The command whose argument is a list of puts.
fn with_lists(argument: &[u8]) -> Command
    ensures { result ≡ list_command (put_list_of (words argument.now)) }
{
    match count_lists(argument) {
        Some(_) => Command::PutList,
        None => Command::Unreadable,
    }
}

// The command of this name with this argument.
fn named(name: &[u8], argument: &[u8]) -> Command
    ensures { result ≡ chosen name.now (commands argument.now) }
{
    let is = |word: &[u8]| name == word;
    if is(b"hex") {
        return with_pairs(argument);
    }
    if is(b"open") {
        return with_file(argument, Command::Open);
    }
    if is(b"save") {
        return with_file(argument, Command::Save);
    }
    if is(b"puts") {
        return with_lists(argument);
    }
    match parse_numbers(argument) {
        Some(numbers) => with_numbers(name, numbers.as_slice()),
        None => Command::Unreadable,
    }
}

// What a line without blanks at its ends asks for: `#` begins a comment.
fn parse_bare(text: &[u8]) -> Command
    ensures { result ≡ spoken text.now }
{
    match text {
        [] => Command::Nothing,
        [b'#', ..] => Command::Nothing,
        _ => {
            let (name, rest) = split_word(text);
            named(name, skip_blanks(rest))
        }
    }
}

// What a line asks for.
pub fn parse_line(line: &[u8]) -> Command
    ensures { result ≡ meaning line.now }
{
    parse_bare(bare(line))
}
