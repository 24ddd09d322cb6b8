// The walk over a word's columns, tried: what it hands on for codewords, for damaged words, and for words with more columns than the code has.
#![tactic(auto)]

ghost use Rattle.std.specs.Prelude.{◌≤◌};

use codes::Code;
use std::io;

// The columns of a code's words, a hexadecimal digit each. It stands in each test program, which takes none of the library's numbers: a crate for it would
// be longer.
fn columns(code: u64) -> usize
    ensures { result ≤ 10 }
{
    if code <= 2 { 9 } else { 10 }
}

// Writes what the walk over a word's columns hands on, on a line: each column's parity, the first column's first, the top row's, and the syndrome, the
// first row first.
fn walk(rt: &impl Print, number: u64, word: u64) -> io::Result<()> {
    let width = columns(number);
    print!(rt; "code {number} walks {word:0width$x}: ")?;
    match Code::try_from(number) {
        Ok(code) => {
            let walk = code.walk(word);
            print!(rt; "parities ")?;
            for column in 0..width {
                print!(rt; "{}", (walk.parities >> column) % 2)?;
            }
            print!(rt; ", top {}, syndrome", u8::from(walk.top))?;
            for left in (0..4u32).rev() {
                print!(rt; " {}", (walk.syndrome >> (2 * left)) % 4)?;
            }
            println!(rt)
        }
        Err(refusal) => println!(rt; "refused {}", refusal.number()),
    }
}

fn main(rt: HostRuntime) -> io::Result<()> {
    walk(&rt, 1, 0x2E485A2D4)?;
    walk(&rt, 2, 0x2D711B194)?;
    walk(&rt, 1, 0xF00000000)?;
    walk(&rt, 3, 0x3003000065)?;
    walk(&rt, 4, 0x8421842184)?;
    walk(&rt, 5, 0x123456)?;
    walk(&rt, 1, 0x1F000000001)?;
    walk(&rt, 3, 0xFFFFFF1000000000)
}
