// The trace calls but the survey. Each takes any buffer and any numbers, as the C interface has them; a refused call changes no byte.
ghost use Rattle.std.specs.Prelude.{◌≡◌};
ghost use Rattle.codes.specs.Answer.{map_answer};
ghost use Rattle.trace.specs.Calls.{after, put, flip, mark, load, clear, read};
ghost use Rattle.trace.specs.Trace.{on_bytes, make, alone_in};
ghost use Rattle.trace.specs.Answers.{done_answer, load_answer, read_answer, reading_values};

use crate::answer::{Reading, Refusal};
use crate::change::{change_slot, put_content};
use crate::layout::{SlotCount, find, write_blank};
use crate::slot::Content;
use codes::Code;

// Makes a trace of blank slots at the buffer's end. Refusals 1, 6 and 7.
#[tactic(auto, unfolding(crate::specs::Trace::make))]
pub fn make(b: &mut [u8], code: u64, slots: u64) -> Result<(), Refusal>
    ensures { after (done_answer result) b.new ≡ make (record { code = code; slots = slots }) b.old }
{
    Code::try_from(code)?;
    let slots = SlotCount::try_from(slots)?;
    if b.len() < slots.needed() {
        return Err(Refusal::BufferShort);
    }
    write_blank(b, code, slots);
    Ok(())
}

// Writes a step and a reading into a slot. Refusals 7, 8, 9 and 13.
pub fn put(b: &mut [u8], slot: u64, step: u64, reading: u64) -> Result<(), Refusal>
    ensures { after (done_answer result) b.new ≡ on_bytes (put slot step reading) b.old }
{
    change_slot(b, slot, |held| put_content(held.code, step, reading))
}

// Inverts a stored bit. Refusals 7 to 12.
pub fn flip(b: &mut [u8], slot: u64, position: u64) -> Result<(), Refusal>
    ensures { after (done_answer result) b.new ≡ on_bytes (flip slot position) b.old }
{
    change_slot(b, slot, |held| {
        let f = held.bit(position)?;
        Ok((Content::Written(f.word ^ f.bit, f.marks), ()))
    })
}

// Marks a stored bit. Refusals 7 to 12.
pub fn mark(b: &mut [u8], slot: u64, position: u64) -> Result<(), Refusal>
    ensures { after (done_answer result) b.new ≡ on_bytes (mark slot position) b.old }
{
    change_slot(b, slot, |held| {
        let f = held.bit(position)?;
        Ok((Content::Written(f.word, f.marks | f.bit), ()))
    })
}

// Inverts so many different stored bits, drawn from a seed, and answers the number handed back. Refusals 7 to 11, then 14.
pub fn load(b: &mut [u8], slot: u64, seed: u32, count: u64) -> Result<u32, Refusal>
    ensures { after (load_answer result) b.new ≡ on_bytes (load slot seed count) b.old }
{
    change_slot(b, slot, |held| held.load(seed, count))
}

// Blanks a slot. Refusals 7, 8 and 9.
pub fn clear(b: &mut [u8], slot: u64) -> Result<(), Refusal>
    ensures { after (done_answer result) b.new ≡ on_bytes (clear slot) b.old }
{
    change_slot(b, slot, |_| Ok((Content::Blank, ())))
}

// Mends a slot by what it alone holds, as survey and listing take it. Refusals 7 to 11, then 5.
#[tactic(auto, using(crate::proofs::Finding::alone_refused, crate::proofs::Finding::alone_found))]
pub fn read_alone(b: &[u8], slot: u64) -> Result<Reading, Refusal>
    ensures { read_answer result ≡ alone_in b.now slot }
{
    find(b, slot)?.read(b)
}

// Mends a slot. Refusals 7 to 11, then 5.
#[tactic(auto, using(crate::proofs::Readings::read_step))]
pub fn read(b: &[u8], slot: u64) -> Result<Reading, Refusal>
    ensures { after (map_answer reading_values (read_answer result)) b.now ≡ on_bytes (read slot) b.now }
{
    read_alone(b, slot)
}
