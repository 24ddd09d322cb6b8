// A call of a script on the lent bytes, and its answer as a line, in place of what the string held.
ghost use Rattle.std.specs.Prelude.{◌≡◌};
ghost use Rattle.script.specs.Answering.{answered, answered_list};

use crate::line::Call;
use arrayvec::ArrayString;
use lines::{ANSWER, bytes_line, done_line, load_line, read_line, survey_line};

// Makes a call on the lent bytes, and writes its line.
pub fn answer(call: Call, b: &mut [u8], out: &mut ArrayString<ANSWER>)
    ensures b_after { b.new ≡ (answered call b.old).bytes }
    ensures line { out.new.bytes ≡ (answered call b.old).line }
{
    match call {
        Call::Make(code, slots) => done_line(trace::make(b, code, slots), out),
        Call::Put(slot, step, reading) => done_line(trace::put(b, slot, step, reading), out),
        Call::Flip(slot, position) => done_line(trace::flip(b, slot, position), out),
        Call::Mark(slot, position) => done_line(trace::mark(b, slot, position), out),
        Call::Load(slot, seed, count) => load_line(trace::load(b, slot, seed, count), out),
        Call::Clear(slot) => done_line(trace::clear(b, slot), out),
        Call::Read(slot) => read_line(trace::read(b, slot), out),
        Call::Survey => survey_line(trace::survey(b), out),
        Call::Bytes => bytes_line(b, out),
    }
}

// Makes a list of puts on the lent bytes, and writes its line.
pub fn answer_list(
    start: u64,
    steps: &[u64],
    readings: &[u64],
    b: &mut [u8],
    out: &mut ArrayString<ANSWER>,
)
    ensures b_after { b.new ≡ (answered_list start steps.now readings.now b.old).bytes }
    ensures line { out.new.bytes ≡ (answered_list start steps.now readings.now b.old).line }
{
    done_line(trace::put_list(b, start, steps, readings), out);
}
