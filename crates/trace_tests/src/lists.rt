// Lists of puts, tried: each refusal, also where later ones apply too; empty lists; starts to which no number can be added; lists that fit exactly.
// Each accepted list is held against its single puts.
ghost use Rattle.std.specs.Prelude.{◌≤◌};

use crate::buffer::Buffer;
use crate::code::Code;
use std::io;

// The single puts of lists, of at most five pairs.
fn single_puts(buffer: Buffer, start: u64, steps: &[u64], readings: &[u64]) -> Buffer
    requires { start ≤ 5 }
{
    let mut b = buffer;
    for (slot, (step, reading)) in (start..start + 5).zip(steps.iter().zip(readings)) {
        b = b.after(|b| trace::put(b, slot, *step, *reading));
    }
    b
}

// A list of puts on all bytes, and whether any byte is another where its single puts are made instead.
fn put_both(
    rt: &impl Print,
    buffer: Buffer,
    start: u64,
    steps: &[u64],
    readings: &[u64],
) -> io::Result<Buffer>
    requires { start ≤ 5 }
{
    let b = buffer.put_list(rt, start, steps, readings)?;
    print!(rt; "single puts instead")?;
    b.show_change(rt, single_puts(buffer, start, steps, readings))?;
    Ok(b)
}

// Refusals 7 and 8, where all others apply too: a short buffer, and no trailer.
fn no_trace(rt: &impl Print, b: Buffer) -> io::Result<()> {
    b.lending(7)
        .put_list(rt, u64::MAX, &[u64::MAX, u64::MAX], &[u64::MAX])?;
    b.lending(8)
        .put_list(rt, u64::MAX, &[u64::MAX, u64::MAX], &[u64::MAX])?;
    Ok(())
}

// Refusal 9: the slot behind the last one, and the last number there is, to which no count can be added.
fn no_start(rt: &impl Print, b: Buffer, code: Code) -> io::Result<()> {
    b.put_list(rt, 5, &[], &[])?;
    b.put_list(rt, 5, &[code.steps, 0], &[4096])?;
    b.put_list(rt, u64::MAX, &[], &[])?;
    b.put_list(rt, u64::MAX, &[1], &[1])?;
    b.put_list(rt, u64::MAX - 1, &[1, 2, 3], &[1, 2, 3])?;
    Ok(())
}

// Refusal 15: one step more than slots, also where the lists differ in length and have numbers that are too large.
fn past_end(rt: &impl Print, b: Buffer, code: Code) -> io::Result<()> {
    b.put_list(rt, 4, &[1, 2], &[1, 2])?;
    b.put_list(rt, 4, &[code.steps, 2], &[4096])?;
    b.put_list(rt, 0, &[1, 2, 3, 4, 5, 6], &[])?;
    b.put_list(rt, 1, &[1, 2, 3, 4, 5], &[1, 2, 3, 4, u64::MAX])?;
    Ok(())
}

// Refusal 16: steps or readings are missing, also where numbers are too large.
fn uneven(rt: &impl Print, b: Buffer, code: Code) -> io::Result<()> {
    b.put_list(rt, 4, &[], &[1])?;
    b.put_list(rt, 0, &[1], &[])?;
    b.put_list(rt, 0, &[code.steps, 1], &[4096])?;
    b.put_list(rt, 3, &[1, 2], &[1, 2, 3, 4, 5, 6])?;
    Ok(())
}

// Refusal 13: the first, a middle and the last number of each list.
fn too_large(rt: &impl Print, b: Buffer, code: Code) -> io::Result<()> {
    b.put_list(rt, 0, &[code.steps, 1, 2], &[4, 5, 6])?;
    b.put_list(rt, 0, &[0, code.steps, 2], &[4, 5, 6])?;
    b.put_list(rt, 0, &[0, 1, u64::MAX], &[4, 5, 6])?;
    b.put_list(rt, 0, &[0, 1, 2], &[4096, 5, 6])?;
    b.put_list(rt, 0, &[0, 1, 2], &[4, u64::MAX, 6])?;
    b.put_list(rt, 0, &[0, 1, 2], &[4, 5, 4096])?;
    Ok(())
}

// Lists that are accepted: empty ones, one pair in the last slot, all slots at once with the largest numbers, one list as both.
fn fitting(rt: &impl Print, b: Buffer, code: Code) -> io::Result<()> {
    put_both(rt, b, 0, &[], &[])?;
    put_both(rt, b, 4, &[], &[])?;
    put_both(rt, b, 4, &[74], &[2385])?;
    let most = code.steps - 1;
    put_both(rt, b, 0, &[most, 0, 1, 2, most], &[4095, 0, 1, 4094, 4095])?;
    let both = [3, 2, 1];
    put_both(rt, b, 1, &both, &both)?;
    Ok(())
}

// Lists over slots that are written, damaged, marked and bad.
fn again(rt: &impl Print, b: Buffer) -> io::Result<()> {
    let w = put_both(rt, b, 1, &[5, 6, 7], &[100, 200, 300])?;
    let damaged = w
        .after(|b| trace::flip(b, 1, 0))
        .after(|b| trace::mark(b, 2, 35));
    put_both(
        rt,
        damaged.with(34, 9),
        0,
        &[8, 9, 10, 11],
        &[400, 500, 600, 700],
    )?;
    Ok(())
}

// The lists of a code.
pub(crate) fn play_lists(rt: &impl Print, code: Code) -> io::Result<()> {
    let unmade = Buffer::filled(255);
    no_trace(rt, unmade)?;
    let b = unmade.after(|b| trace::make(b, code.number, 5));
    no_start(rt, b, code)?;
    past_end(rt, b, code)?;
    uneven(rt, b, code)?;
    too_large(rt, b, code)?;
    fitting(rt, b, code)?;
    again(rt, b)
}
