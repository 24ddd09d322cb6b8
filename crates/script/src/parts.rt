// The parts of a line.
ghost use Rattle.std.specs.Prelude.{◌≡◌, length, drop, Option};
ghost use Rattle.std.specs.List.{position};
ghost use Rattle.script.specs.Script.{is_blank, skip_blanks, trim_end, bare, word, argument};

// Whether a byte is a space or a tab.
fn is_blank(byte: u8) -> bool
    ensures { result ≡ is_blank byte }
{
    byte == b' ' || byte == b'\t'
}

// A text without the blanks in front.
pub(crate) fn skip_blanks(text: &[u8]) -> &[u8]
    ensures { result.now ≡ skip_blanks text.now }
{
    let mut rest = text;
    while let [first, others @ ..] = rest {
        if !is_blank(*first) {
            break;
        }
        rest = others;
    }
    rest
}

// A text without the blanks at the end.
fn trim_end(text: &[u8]) -> &[u8]
    ensures { result.now ≡ trim_end text.now }
{
    let mut rest = text;
    while let [others @ .., last] = rest {
        if !is_blank(*last) {
            break;
        }
        rest = others;
    }
    rest
}

// A line without a final carriage return and the blanks at both ends.
pub fn bare(line: &[u8]) -> &[u8]
    ensures { result.now ≡ bare line.now }
{
    let text = line.strip_suffix(b"\r").unwrap_or(line);
    skip_blanks(trim_end(text))
}

// Where the first blank of a text stands.
fn first_blank(text: &[u8]) -> Option<usize>
    ensures { result ≡ position is_blank text.now }
{
    text.iter().position(|byte| is_blank(*byte))
}

// The first word of a text, which is empty where a blank stands in front, and what stands behind it.
pub(crate) fn split_word(text: &[u8]) -> (&[u8], &[u8])
    ensures word { result.0.now ≡ word text.now }
    ensures rest { result.1.now ≡ drop (length (word text.now)) text.now }
{
    let end = first_blank(text).unwrap_or(text.len());
    text.split_at(end)
}

// What stands behind the first word of a line, without blanks at either end.
pub fn argument(line: &[u8]) -> &[u8]
    ensures { result.now ≡ argument line.now }
{
    let (_, rest) = split_word(bare(line));
    skip_blanks(rest)
}
