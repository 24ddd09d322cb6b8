// The line of a script's line that can't be played.
ghost use Rattle.std.specs.Prelude.{◌≡◌, ◌++◌};
ghost use Rattle.lines.specs.Trouble.{is_plain, visible_byte, visible, shown, trouble_words, trouble_line};
ghost use Rattle.lines.specs.ContractsOfSteps.{HasRoom};

use crate::answers::ANSWER;
use crate::text::{write_hex, write_numbers};
use arrayvec::ArrayString;

// Why a line can't be played: it means nothing, it asks for a buffer that isn't lent, its file can't be read, or can't be written.
#[derive(Clone, Copy, Debug, PartialEq, Eq)]
pub enum Trouble {
    Unreadable,
    NotLent,
    NotRead,
    NotWritten,
}

impl Trouble {
    fn words(self) -> &'static str
        ensures { result.now ≡ trouble_words self }
    {
        match self {
            Trouble::Unreadable => " unreadable: ",
            Trouble::NotLent => " not lent: ",
            Trouble::NotRead => " not read: ",
            Trouble::NotWritten => " not written: ",
        }
    }
}

// So many bytes of a line are shown.
const SHOWN: usize = 72;

// Whether a byte is shown as it is: a printable ASCII character, but the backslash.
fn is_plain(byte: u8) -> bool
    ensures { result ≡ is_plain byte }
{
    matches!(byte, b' '..=b'~') && byte != b'\\'
}

// A byte made visible.
#[tactic(auto, unfolding(crate::specs::Trouble::visible_byte))]
fn write_visible<const N: usize>(out: &mut ArrayString<N>, byte: u8)
    requires { HasRoom N out.old (visible_byte byte) }
    ensures { out.new.bytes ≡ out.old.bytes ++ visible_byte byte }
{
    if is_plain(byte) {
        out.push(char::from(byte));
    } else {
        out.push_str("\\x");
        write_hex(out, byte);
    }
}

// Each byte of a text made visible.
#[tactic(auto, using(crate::proofs::Texts::each_more), unfolding(crate::specs::Text::each))]
fn write_all_visible<const N: usize>(out: &mut ArrayString<N>, text: &[u8])
    requires { HasRoom N out.old (visible text.now) }
    ensures { out.new.bytes ≡ out.old.bytes ++ visible text.now }
{
    for byte in text {
        write_visible(out, *byte);
    }
}

// As much of a text as is shown.
#[tactic(auto, unfolding(crate::specs::Trouble::shown))]
fn write_shown<const N: usize>(out: &mut ArrayString<N>, text: &[u8])
    requires { HasRoom N out.old (shown text.now) }
    ensures { out.new.bytes ≡ out.old.bytes ++ shown text.now }
{
    if text.len() <= SHOWN {
        write_all_visible(out, text);
    } else {
        write_all_visible(out, &text[..SHOWN]);
        out.push_str("...");
    }
}

// A line's number, why it can't be played, and a text: the line itself, a file's name or a reason.
#[tactic(auto, unfolding(crate::specs::Trouble::trouble_line))]
fn write_trouble<const N: usize>(out: &mut ArrayString<N>, line: u64, trouble: Trouble, text: &[u8])
    requires { HasRoom N out.old (trouble_line line trouble text.now) }
    ensures { out.new.bytes ≡ out.old.bytes ++ trouble_line line trouble text.now }
{
    out.push_str("line");
    write_numbers(out, &[line]);
    out.push_str(trouble.words());
    write_shown(out, text);
    out.push_str("\n");
}

// The line of a script's line that can't be played.
#[tactic(auto, using(crate::proofs::Lengths::trouble_short))]
pub fn trouble_line(line: u64, trouble: Trouble, text: &[u8], out: &mut ArrayString<ANSWER>)
    ensures { out.new.bytes ≡ trouble_line line trouble text.now }
{
    out.clear();
    write_trouble(out, line, trouble, text);
}
