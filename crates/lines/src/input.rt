// The input of a program.
ghost use Rattle.std.specs.Prelude.{◌≡◌};
ghost use Rattle.trace.specs.Answers.{survey_answer};
ghost use Rattle.lines.specs.Input.{InputBuffer, read_into, survey_file};

use trace::{Refusal, Survey};

// An input has at most this many bytes.
pub const LONGEST: usize = 65536;

// A buffer for an input has one byte more, so that a longer input is seen.
pub const INPUT: usize = LONGEST + 1;

// A file of which `size` bytes were read into such a buffer, which its type and this contract hold to its size. A size beyond the buffer counts as all of it,
// which is too long.
pub fn file_in(input: &[u8; INPUT], size: usize) -> &[u8]
    ensures input_buffer { InputBuffer input.now }
    ensures file { result.now ≡ read_into input.now size }
{
    &input[..INPUT.min(size)]
}

// What a survey of a file answers; one that is too long is refused.
#[tactic(auto, unfolding(crate::specs::Input::survey_file))]
pub(crate) fn survey_file(file: &[u8]) -> Result<Survey, Refusal>
    ensures { survey_answer result ≡ survey_file file.now }
{
    if LONGEST < file.len() {
        return Err(Refusal::BufferShort);
    }
    trace::survey(file)
}
