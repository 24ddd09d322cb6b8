// Text written behind what a string of a fixed capacity holds. There must be room for it.
ghost use Rattle.std.specs.Prelude.{◌≡◌, [], ◌∷◌, ◌++◌, ◌*◌, ◌/◌, ◌%◌, ◌<◌, length, map, slice_index, EachIndex};
ghost use Rattle.lines.specs.Text.{decimal, hex_digit, hex, each, spaced};
ghost use Rattle.lines.specs.ContractsOfSteps.{HasRoom};

use arrayvec::ArrayString;
use itoa::Buffer;
use std::str;

// Each number in decimal, after a space.
// The loop is its own, as that of `write_all_visible`: one that takes the step as a closure would need a contract of it, and be longer.
#[tactic(auto, unfolding(crate::specs::Text::each))]
pub(crate) fn write_numbers<const N: usize>(out: &mut ArrayString<N>, numbers: &[u64])
    requires { HasRoom N out.old (spaced numbers.now) }
    ensures { out.new.bytes ≡ out.old.bytes ++ spaced numbers.now }
{
    for number in numbers {
        out.push_str(" ");
        write_decimal(out, *number);
    }
}

// A number's decimal digits.
#[tactic(auto, using(crate::proofs::Decimals::decimal_same))]
pub(crate) fn write_decimal<const N: usize>(out: &mut ArrayString<N>, number: u64)
    requires { HasRoom N out.old (decimal number) }
    ensures { out.new.bytes ≡ out.old.bytes ++ decimal number }
{
    out.push_str(Buffer::new().format(number));
}

// The character of a hexadecimal digit, in upper case. `char::from_digit` gives lower case, so it would be no plainer.
fn hex_digit(digit: u8) -> u8
    requires { digit < 16 }
    ensures value { result ≡ hex_digit digit }
    ensures ascii { result < 128 }
{
    match digit {
        0..=9 => b'0' + digit,
        _ => b'A' + (digit - 10),
    }
}

// A byte as two hexadecimal digits.
#[tactic(auto, unfolding(crate::specs::Text::hex))]
pub(crate) fn write_hex<const N: usize>(out: &mut ArrayString<N>, byte: u8)
    requires { HasRoom N out.old (hex byte) }
    ensures { out.new.bytes ≡ out.old.bytes ++ hex byte }
{
    out.push(char::from(hex_digit(byte / 16)));
    out.push(char::from(hex_digit(byte % 16)));
}

// The two hexadecimal digits of each byte, as numbers.
fn split_nibbles(bytes: &[u8], digits: &mut [u8])
    requires { length digits.old ≡ 2 * length bytes.now }
    ensures { digits.new ≡ each (λ byte. byte / 16 ∷ byte % 16 ∷ []) bytes.now }
{
    for (i, byte) in bytes.iter().enumerate() {
        digits[2 * i] = *byte / 16;
        digits[2 * i + 1] = *byte % 16;
    }
}

// Each hexadecimal digit's character, in place of its number.
fn spell_digits(digits: &mut [u8])
    requires { EachIndex digits.old (λ k. slice_index digits.old k < 16) }
    ensures { digits.new ≡ map hex_digit digits.old }
{
    for digit in digits.iter_mut() {
        *digit = hex_digit(*digit);
    }
}

// Each byte as two hexadecimal digits, which are made in the bytes that are lent for them.
fn write_part<const N: usize>(out: &mut ArrayString<N>, bytes: &[u8], digits: &mut [u8])
    requires room { HasRoom N out.old (each hex bytes.now) }
    requires size { length digits.old ≡ 2 * length bytes.now }
    ensures { out.new.bytes ≡ out.old.bytes ++ each hex bytes.now }
{
    split_nibbles(bytes, digits);
    spell_digits(digits);
    out.push_str(str::from_utf8(digits).unwrap());
}

// So many bytes are written at a time. Their digits are made in an array, by two loops that LLVM turns into vector code of sixteen bytes, one loop for both
// into code of eight, and appended at once: appended one by one, they take several times as long.
const PART: usize = 256;

// Each byte as two hexadecimal digits.
pub(crate) fn write_hexes<const N: usize>(out: &mut ArrayString<N>, bytes: &[u8])
    requires { HasRoom N out.old (each hex bytes.now) }
    ensures { out.new.bytes ≡ out.old.bytes ++ each hex bytes.now }
{
    let mut digits = [0u8; 2 * PART];
    for part in bytes.chunks(PART) {
        write_part(out, part, &mut digits[..2 * part.len()]);
    }
}
