// Bytes in hexadecimal: pairs of digits, with any blanks between the pairs.
ghost use Rattle.std.specs.Prelude.{◌≡◌, ◌<◌, ◌≤◌, Some, length, option_map, IfSome};
ghost use Rattle.script.specs.Script.{hex_value, hex_byte, hex_bytes};
ghost use Rattle.script.specs.Lending.{over};
ghost use Rattle.script.specs.ContractsOfSteps.{list_of, IsList};

use crate::items::{count, write};
use crate::parts::skip_blanks;

// The value of a hexadecimal digit in either case. A char's `to_digit` would be no plainer: what a line means is said by the bytes.
fn hex_value(byte: u8) -> Option<u8>
    ensures value { result ≡ hex_value byte }
    ensures digit { IfSome result (λ value. value < 16) }
{
    match byte {
        b'0'..=b'9' => Some(byte - b'0'),
        b'A'..=b'F' => Some(byte - b'A' + 10),
        b'a'..=b'f' => Some(byte - b'a' + 10),
        _ => None,
    }
}

// The byte of two digits.
fn hex_byte(high: u8, low: u8) -> Option<u8>
    ensures { result ≡ hex_byte high low }
{
    Some(hex_value(high)? * 16 + hex_value(low)?)
}

// The bytes of a text, one after the other, each of which may be none that can be read.
#[derive(Drop)]
struct Pairs<'a>(&'a [u8]);

impl<'a> Iterator for Pairs<'a> {
    ghost use Rattle.std.specs.Iterator.{YieldsFirst, item_count};
    ghost use Rattle.script.specs.ContractsOfSteps.{pairs_left};

    type Item = Option<u8>;

    ghost next_gives = { YieldsFirst pairs_left };

    ghost remaining = { item_count pairs_left };

    fn next(&mut self) -> Option<Option<u8>> {
        let text = skip_blanks(self.0);
        match text {
            [high, low, rest @ ..] => {
                self.0 = rest;
                Some(hex_byte(*high, *low))
            }
            [_, rest @ ..] => {
                self.0 = rest;
                Some(None)
            }
            [] => {
                self.0 = text;
                None
            }
        }
    }
}

// How many bytes a text is in hexadecimal.
pub(crate) fn count_pairs(text: &[u8]) -> Option<usize>
    ensures { result ≡ option_map length (hex_bytes text.now) }
{
    count(Pairs(text))
}

// Writes the bytes that a text is in hexadecimal over the front of a buffer that has room for them.
pub(crate) fn write_pairs(text: &[u8], buffer: &mut [u8])
    requires are { IsList (hex_bytes text.now) }
    requires fit { length (list_of (hex_bytes text.now)) ≤ length buffer.old }
    ensures { buffer.new ≡ over (list_of (hex_bytes text.now)) buffer.old }
{
    write(Pairs(text), buffer);
}
