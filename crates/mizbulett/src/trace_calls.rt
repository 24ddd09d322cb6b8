// The trace calls.
ghost use Rattle.std.specs.Prelude.{◌≡◌};
ghost use Rattle.codes.specs.Answer.{map_answer};
ghost use Rattle.trace.specs.Calls.{put, put_list, flip, mark, load, clear, read};
ghost use Rattle.trace.specs.Trace.{on_bytes, make, survey_in};
ghost use Rattle.mizbulett.specs.Returned.{returned, returns, leaves, survey_flagged};

use crate::answers::{give, lone, number};
use trace::{Reading, Survey};

// Makes a trace of blank slots at the buffer's end. Refusals 1, 6 and 7.
#[unsafe(no_mangle)]
pub extern "C" fn mizbulett_make(buf: &mut [u8], code: u64, slots: u64) -> u64
    ensures { returned result buf.new ≡ leaves (make (record { code = code; slots = slots }) buf.old) }
{
    number(trace::make(buf, code, slots))
}

// Writes a step and a reading into a slot. Refusals 7, 8, 9 and 13.
#[unsafe(no_mangle)]
pub extern "C" fn mizbulett_put(buf: &mut [u8], slot: u64, step: u64, reading: u64) -> u64
    ensures { returned result buf.new ≡ leaves (on_bytes (put slot step reading) buf.old) }
{
    number(trace::put(buf, slot, step, reading))
}

// Writes a list of steps and a list of readings into the slots from a first one on: all of them, or none. Refusals 7, 8, 9, 15, 16 and 13.
#[unsafe(no_mangle)]
pub extern "C" fn mizbulett_put_list(
    buf: &mut [u8],
    start: u64,
    steps: &[u64],
    readings: &[u64],
) -> u64
    ensures { returned result buf.new
        ≡ leaves (on_bytes (put_list start steps.now readings.now) buf.old) }
{
    number(trace::put_list(buf, start, steps, readings))
}

// Inverts a stored bit. Refusals 7 to 12.
#[unsafe(no_mangle)]
pub extern "C" fn mizbulett_flip(buf: &mut [u8], slot: u64, position: u64) -> u64
    ensures { returned result buf.new ≡ leaves (on_bytes (flip slot position) buf.old) }
{
    number(trace::flip(buf, slot, position))
}

// Marks a stored bit. Refusals 7 to 12.
#[unsafe(no_mangle)]
pub extern "C" fn mizbulett_mark(buf: &mut [u8], slot: u64, position: u64) -> u64
    ensures { returned result buf.new ≡ leaves (on_bytes (mark slot position) buf.old) }
{
    number(trace::mark(buf, slot, position))
}

// Inverts so many different stored bits, drawn from a seed, and writes the number handed back. Refusals 7 to 11, then 14.
#[unsafe(no_mangle)]
pub extern "C" fn mizbulett_load(
    buf: &mut [u8],
    slot: u64,
    seed: u32,
    count: u64,
    out: &mut [u64; 1],
) -> u64
    ensures buf_after { returned result buf.new ≡ leaves (on_bytes (load slot seed count) buf.old) }
    ensures out_after { returned result out.new ≡ returns (on_bytes (load slot seed count) buf.old).answer out.old }
{
    let handed_back = trace::load(buf, slot, seed, count).map(u64::from);
    give(handed_back.map(lone), out)
}

// Blanks a slot. Refusals 7, 8 and 9.
#[unsafe(no_mangle)]
pub extern "C" fn mizbulett_clear(buf: &mut [u8], slot: u64) -> u64
    ensures { returned result buf.new ≡ leaves (on_bytes (clear slot) buf.old) }
{
    number(trace::clear(buf, slot))
}

// Mends a slot, and writes step, reading, wrong, marks and marked wrong. Refusals 7 to 11, then 5.
#[unsafe(no_mangle)]
pub extern "C" fn mizbulett_read(buf: &[u8], slot: u64, out: &mut [u64; 5]) -> u64
    ensures { returned result out.new ≡ returns (on_bytes (read slot) buf.now).answer out.old }
{
    give(trace::read(buf, slot).map(Reading::values), out)
}

// The values of a survey, and before the last three a flag: 1 where they are present.
fn flagged(s: Survey) -> [u64; 11]
    ensures { result ≡ survey_flagged s }
{
    let [blank, read, over, under, lost, bad, sum] = s.counts_and_sum();
    let (present, [smallest, largest, mean]) = match s.pressures {
        Some(p) => (1, p.values()),
        None => (0, [0; 3]),
    };
    [
        blank, read, over, under, lost, bad, sum, present, smallest, largest, mean,
    ]
}

// Counts the slots, and writes blank, read, over, under, lost, bad, sum, present, smallest, largest and mean. Refusals 7 and 8.
#[unsafe(no_mangle)]
pub extern "C" fn mizbulett_survey(buf: &[u8], out: &mut [u64; 11]) -> u64
    ensures { returned result out.new ≡ returns (map_answer survey_flagged (survey_in buf.now)) out.old }
{
    give(trace::survey(buf).map(flagged), out)
}
