// What put, flip, mark, load and clear make of a slot's content, and a change of a slot in a buffer.
ghost use Rattle.std.specs.Prelude.{◌≡◌};
ghost use Rattle.codes.specs.Codes.{projection};
ghost use Rattle.trace.specs.Answers.{done_answer, load_answer};
ghost use Rattle.trace.specs.ContractsOfSteps.{put_change, load_change, FindingBit, Changing, ChangedBy};

use crate::answer::Refusal;
use crate::layout::find;
use crate::loads::draw_all;
use crate::slot::{Content, Held, READINGS, bit};
use codes::Code;

// A written slot's word and marks, and the bit of a position.
#[derive(Clone, Copy)]
pub(crate) struct BitFound {
    pub word: u64,
    pub marks: u64,
    pub bit: u64,
}

// Refusal 13: a message's codeword and no marks, whatever the slot held.
pub(crate) fn put_content(code: Code, step: u64, reading: u64) -> Result<(Content, ()), Refusal>
    ensures { Changing done_answer (put_change (projection code) step reading) result }
{
    if code.step_limit() <= step {
        return Err(Refusal::TooLarge);
    }
    if READINGS <= reading {
        return Err(Refusal::TooLarge);
    }
    let Ok(word) = code.encode(step * READINGS + reading) else {
        return Err(Refusal::TooLarge);
    };
    Ok((Content::Written(word, 0), ()))
}

impl Held {
    // Refusals 10, 11 and 12: a written slot's word and marks, and the bit of a position.
    pub(crate) fn bit(self, position: u64) -> Result<BitFound, Refusal>
        ensures { FindingBit (projection self.code) self.content position result }
    {
        let (word, marks) = self.content.written()?;
        let width = self.code.width();
        if width <= position {
            return Err(Refusal::NoPosition);
        }
        Ok(BitFound {
            word,
            marks,
            bit: bit(width, position),
        })
    }

    // Refusals 10, 11 and 14: the drawn positions inverted, and the number handed back.
    pub(crate) fn load(self, seed: u32, count: u64) -> Result<(Content, u32), Refusal>
        ensures { Changing load_answer (load_change (projection self.code) self.content seed count) result }
    {
        let (word, marks) = self.content.written()?;
        let width = self.code.width();
        if width < count {
            return Err(Refusal::TooMany);
        }
        let load = draw_all(width, seed, count);
        Ok((
            Content::Written(word ^ load.picked, marks),
            load.generator.number,
        ))
    }
}

// Changes a slot of the trace in a buffer: the step takes what the slot holds, and gives what it then holds, and what the call hands back.
pub(crate) fn change_slot<T, F: FnOnce(Held) -> Result<(Content, T), Refusal>>(
    b: &mut [u8],
    slot: u64,
    step: F,
) -> Result<T, Refusal>
    requires { F.IsAlwaysCallable step }
    ensures { ChangedBy (F.post step) slot b.old b.new result }
{
    let found = find(b, slot)?;
    let (content, given) = step(Held {
        code: found.code,
        content: found.content(b),
    })?;
    found.write(b, content);
    Ok(given)
}
