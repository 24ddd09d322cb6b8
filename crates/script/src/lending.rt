// The lines that lend bytes.
ghost use Rattle.std.specs.Prelude.{◌≡◌, Some};
ghost use Rattle.lines.specs.Input.{InputBuffer, read_into};
ghost use Rattle.script.specs.Script.{hex_bytes};
ghost use Rattle.script.specs.Lending.{zeros, line_lends, lending, lend_in, Fits};

use crate::hex::{count_pairs, write_pairs};
use crate::line::{Command, parse_line};
use crate::parts::argument;
use lines::{INPUT, file_in};

// Why a buffer gets nothing from a line.
#[derive(Clone, Copy, Debug, PartialEq, Eq)]
pub enum NotTaken {
    // It asks for more than the buffer has.
    TooMany,
    // It asks for nothing.
    Nothing,
}

// Lends as many zero bytes, where they fit. The test of the room stands in three functions: with `get_mut` and `?`, tried, the proof didn't close.
fn lend_zeros(n: u64, buffer: &mut [u8]) -> Result<usize, NotTaken>
    ensures lent { lending result buffer.new ≡ lend_in (Some (zeros n)) buffer.old }
    ensures fits { Fits result buffer.old }
{
    let size = n as usize;
    if buffer.len() < size {
        return Err(NotTaken::TooMany);
    }
    buffer[..size].fill(0);
    Ok(size)
}

// Lends these bytes, where they fit: they stand at the front of the buffer then. Where they are more than the buffer has, it stays.
pub fn lend_bytes(bytes: &[u8], buffer: &mut [u8]) -> Result<usize, NotTaken>
    ensures lent { lending result buffer.new ≡ lend_in (Some bytes.now) buffer.old }
    ensures fits { Fits result buffer.old }
{
    let size = bytes.len();
    if buffer.len() < size {
        return Err(NotTaken::TooMany);
    }
    buffer[..size].copy_from_slice(bytes);
    Ok(size)
}

// Lends the bytes of a file of which a program read `size` bytes into its buffer, where they fit; else the other buffer stays.
pub fn lend_input(input: &[u8; INPUT], size: usize, buffer: &mut [u8]) -> Result<usize, NotTaken>
    ensures input_buffer { InputBuffer input.now }
    ensures lent { lending result buffer.new ≡ lend_in (Some (read_into input.now size)) buffer.old }
    ensures fits { Fits result buffer.old }
{
    lend_bytes(file_in(input, size), buffer)
}

// Lends the bytes that a text is in hexadecimal, where they fit.
fn lend_pairs(text: &[u8], buffer: &mut [u8]) -> Result<usize, NotTaken>
    ensures lent { lending result buffer.new ≡ lend_in (hex_bytes text.now) buffer.old }
    ensures fits { Fits result buffer.old }
{
    let Some(size) = count_pairs(text) else {
        return Err(NotTaken::Nothing);
    };
    if buffer.len() < size {
        return Err(NotTaken::TooMany);
    }
    write_pairs(text, buffer);
    Ok(size)
}

// Lends the bytes that a line asks for, at the front of the buffer. Any other line changes nothing, and so does one that asks for more
// bytes than the buffer has.
pub fn lend(line: &[u8], buffer: &mut [u8]) -> Result<usize, NotTaken>
    ensures lent { lending result buffer.new ≡ lend_in (line_lends line.now) buffer.old }
    ensures fits { Fits result buffer.old }
{
    match parse_line(line) {
        Command::Buffer(n) => lend_zeros(n, buffer),
        Command::Hex => lend_pairs(argument(line), buffer),
        _ => Err(NotTaken::Nothing),
    }
}

#[cfg(test)]
mod tests {
    use super::*;

    // More bytes than the longest input has.
    const MANY: usize = 70_000;

    #[test]
    fn lends_more_bytes_than_an_input_has(rt: HostRuntime) {
        let bytes = [7u8; MANY];
        let mut buffer = [1u8; MANY + 1];
        let mut expected = [7u8; MANY + 1];
        expected[MANY] = 1;
        assert_eq!(rt; lend_bytes(&bytes, &mut buffer), Ok(MANY));
        assert_eq!(rt; buffer, expected);
    }

    #[test]
    fn lends_no_part_of_the_bytes(rt: HostRuntime) {
        let mut buffer = [1u8; 2];
        assert_eq!(rt; lend_bytes(&[7, 8, 9], &mut buffer), Err(NotTaken::TooMany));
        assert_eq!(rt; buffer, [1, 1]);
    }
}
