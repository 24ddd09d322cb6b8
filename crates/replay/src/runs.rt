// Runs of lists of calls.
ghost use Rattle.std.specs.Prelude.{◌≡◌};
ghost use Rattle.trace.specs.Calls.{after};
ghost use Rattle.trace.specs.Trace.{on_bytes};
ghost use Rattle.replay.specs.ContractsOfSteps.{answer_of, call_of, least_room, KeepsOrFits, RunsCall};
ghost use Rattle.replay.specs.Replay.{Replayed};

use crate::answers::{Values, survey_values, write_answer};
use crate::calls::{Call, next_call};
use trace::Refusal;

// The numbers of an answer without values: the refusal's number or 0, and the count of values, which is 0.
const CHANGE_ROOM: usize = 2;

// The room that a call needs before it runs: an accepted load has one value.
fn least_room(call: Call) -> usize
    ensures { result ≡ least_room (call_of call.entry) }
{
    match call {
        Call::Load { .. } => CHANGE_ROOM + 1,
        _ => CHANGE_ROOM,
    }
}

// Runs a call, and answers its values.
#[tactic(auto, using(trace::proofs::Laws::survey_step))]
fn run(b: &mut [u8], call: Call) -> Result<Values, Refusal>
    ensures answered { after (answer_of result) b.new ≡ on_bytes (call_of call.entry) b.old }
    ensures keeps_or_fits { KeepsOrFits (call_of call.entry) (answer_of result) b.old b.new }
{
    let mut values = Values::new();
    match call {
        Call::Put {
            slot,
            step,
            reading,
        } => trace::put(b, slot, step, reading)?,
        Call::PutList {
            start,
            steps,
            readings,
        } => trace::put_list(b, start, steps, readings)?,
        Call::Flip { slot, position } => trace::flip(b, slot, position)?,
        Call::Mark { slot, position } => trace::mark(b, slot, position)?,
        Call::Clear { slot } => trace::clear(b, slot)?,
        Call::Load { slot, seed, count } => {
            let number = trace::load(b, slot, seed, count)?;
            values.push(u64::from(number));
        }
        Call::Read { slot } => {
            let v = trace::read(b, slot)?;
            values.try_extend_from_slice(&v.values()).unwrap();
        }
        Call::Survey => values = survey_values(trace::survey(b)?),
    }
    Ok(values)
}

// Runs a call that has room in `out`, and no other, and answers how many numbers were written. A call that changes the buffer runs only where any
// answer to it has room.
#[tactic(auto, using(crate::proofs::Rooms::runs_call))]
fn run_call(b: &mut [u8], call: Call, out: &mut [u64]) -> Option<usize>
    ensures { RunsCall (call_of call.entry) b.old out.old b.new out.new result }
{
    if out.len() < least_room(call) {
        return None;
    }
    write_answer(out, run(b, call))
}

// Runs a list of calls while each is whole and has room for its answer, a load for an accepted one's, and answers how many ran.
pub fn replay(b: &mut [u8], calls: &[u64], answers: &mut [u64]) -> usize
    ensures { Replayed b.old calls.now answers.old result b.new answers.new }
{
    let mut ran = 0;
    let mut rest = calls;
    // Tried `answers = &mut answers[size..]`: the proof then knows nothing of what the slice holds in the end.
    let mut written = 0;
    while let Some((call, after)) = next_call(rest) {
        let Some(size) = run_call(b, call, &mut answers[written..]) else {
            return ran;
        };
        ran += 1;
        rest = after;
        written += size;
    }
    ran
}
