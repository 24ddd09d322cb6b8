// What a slot holds, and what a read of it gives.
ghost use Rattle.std.specs.Prelude.{◌≡◌, ◌-◌, ◌^◌, ◌<◌, ◌≤◌, length};
ghost use Rattle.codes.specs.Projection.{width};
ghost use Rattle.codes.specs.Correction.{correct};
ghost use Rattle.codes.specs.Codes.{projection};
ghost use Rattle.trace.specs.Layout.{content_bytes, store_at};
ghost use Rattle.trace.specs.View.{read_corrected, read_content};
ghost use Rattle.trace.specs.Trace.{content_with, content_at};
ghost use Rattle.trace.specs.Answers.{read_answer};
ghost use Rattle.trace.specs.ContractsOfSteps.{Room, Writing};

use crate::answer::{Reading, Refusal};
use crate::bytes::{number_at, store};
use crate::layout::{Found, STATE, WORD};
use codes::Code;

// The states of a slot. They are the format's bytes, not an enum: a stored byte may be any number, and any other than the first two is bad.
const BLANK: u64 = 0;

const WRITTEN: u64 = 1;

const BAD: u64 = 2;

// A message is a step times this plus a reading.
pub(crate) const READINGS: u64 = Code::READINGS;

// What a slot holds: nothing, numbers that no call writes, or a word under marks.
#[derive(Clone, Copy)]
pub(crate) enum Content {
    Blank,
    Bad,
    Written(u64, u64),
}

// What a slot holds, under the trace's code.
#[derive(Clone, Copy)]
pub(crate) struct Held {
    pub code: Code,
    pub content: Content,
}

impl Content {
    // Refusals 10 and 11: a written slot's word and marks.
    pub(crate) fn written(self) -> Result<(u64, u64), Refusal>
        ensures { Writing self result }
    {
        match self {
            Content::Blank => Err(Refusal::SlotBlank),
            Content::Bad => Err(Refusal::SlotBad),
            Content::Written(word, marks) => Ok((word, marks)),
        }
    }
}

// The bit of a position in a word of so many bits: position 0 is the highest.
pub(crate) fn bit(width: u64, position: u64) -> u64
    requires { (width ≤ 64) × (position < width) }
    ensures { result ≡ 2 ^ (width - 1 - position) }
{
    1u64 << (width - 1 - position)
}

// What a slot with these numbers holds.
#[tactic(auto, unfolding(crate::specs::Trace::content_with, crate::specs::Refusals::is_bad))]
fn classify(code: Code, state: u64, word: u64, marks: u64) -> Content
    ensures { result ≡ content_with (projection code) state word marks }
{
    let limit = code.word_limit();
    if WRITTEN < state || limit <= word || limit <= marks {
        return Content::Bad;
    }
    if state == WRITTEN {
        return Content::Written(word, marks);
    }
    if word != 0 || marks != 0 {
        return Content::Bad;
    }
    Content::Blank
}

// Mends a word under its marks, and splits its message.
fn read_word(code: Code, word: u64, marks: u64) -> Result<Reading, Refusal>
    requires { (word < 2 ^ width (projection code)) × (marks < 2 ^ width (projection code)) }
    ensures { read_answer result ≡ read_corrected (correct (projection code) word marks) }
{
    let answer = code.correct(word, marks);
    // The form that the scope names; `?` would be shorter.
    let Ok(c) = answer else {
        return Err(answer.unwrap_err().into());
    };
    Ok(Reading {
        step: c.message / READINGS,
        reading: c.message % READINGS,
        wrong: c.wrong,
        marks: c.marks,
        marked_wrong: c.marked_wrong,
    })
}

impl Found {
    // What the slot holds.
    pub(crate) fn content(self, b: &[u8]) -> Content
        requires { Room (length b.now) self.place }
        ensures { result ≡ content_at (projection self.code) b.now self.place }
    {
        classify(
            self.code,
            number_at(b, self.place.state, STATE),
            number_at(b, self.place.word, WORD),
            number_at(b, self.place.marks, WORD),
        )
    }

    // What a read gives of the slot, and of it alone. Refusals 10, 11 and 5.
    #[tactic(auto, unfolding(crate::specs::View::read_content))]
    pub(crate) fn read(self, b: &[u8]) -> Result<Reading, Refusal>
        requires { Room (length b.now) self.place }
        ensures { read_answer result ≡ read_content (projection self.code) (content_at (projection self.code) b.now self.place) }
    {
        let (word, marks) = self.content(b).written()?;
        read_word(self.code, word, marks)
    }

    // Stores a content in the slot. No call stores a bad one.
    pub(crate) fn write(self, b: &mut [u8], content: Content)
        requires { Room (length b.old) self.place }
        ensures { b.new ≡ store_at b.old self.place (content_bytes content) }
    {
        let (state, word, marks) = match content {
            Content::Blank => (BLANK, 0, 0),
            Content::Written(word, marks) => (WRITTEN, word, marks),
            Content::Bad => (BAD, 0, 0),
        };
        store(b, self.place.state, STATE, state);
        store(b, self.place.word, WORD, word);
        store(b, self.place.marks, WORD, marks);
    }
}
