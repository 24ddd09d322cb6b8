// Lines: each function writes one, or the rest of one, behind what a string holds, in which there must be room for it. How much that is follows from the
// text, and is another number for each function: no type would say it once.
ghost use Rattle.std.specs.Prelude.{◌≡◌, ◌++◌};
ghost use Rattle.trace.specs.Answers.{read_answer};
ghost use Rattle.lines.specs.Text.{noted, line};
ghost use Rattle.lines.specs.Listing.{status_name, ending, slot_line, total_line, refused_line};
ghost use Rattle.lines.specs.ContractsOfSteps.{HasRoom};

use crate::text::{write_decimal, write_numbers};
use arrayvec::ArrayString;
use trace::{Counts, Reading, Refusal, Status};

// Text, numbers, a note, a newline.
#[tactic(auto, unfolding(crate::specs::Text::noted))]
pub(crate) fn write_noted<const N: usize>(
    out: &mut ArrayString<N>,
    text: &str,
    numbers: &[u64],
    note: &str,
)
    requires { HasRoom N out.old (noted text.now numbers.now note.now) }
    ensures { out.new.bytes ≡ out.old.bytes ++ noted text.now numbers.now note.now }
{
    out.push_str(text);
    write_numbers(out, numbers);
    out.push_str(note);
    out.push_str("\n");
}

// Text, numbers, a newline.
pub(crate) fn write_line<const N: usize>(out: &mut ArrayString<N>, text: &str, numbers: &[u64])
    requires { HasRoom N out.old (line text.now numbers.now) }
    ensures { out.new.bytes ≡ out.old.bytes ++ line text.now numbers.now }
{
    write_noted(out, text, numbers, "");
}

// The word of a status.
pub(crate) fn status_name(status: Status) -> &'static str
    ensures { result.now ≡ status_name status }
{
    match status {
        Status::Blank => "blank",
        Status::Read => "read",
        Status::Over => "over",
        Status::Under => "under",
        Status::Lost => "lost",
        Status::Bad => "bad",
    }
}

// What follows the slot, by what a read of it answers: a reading that is no pressure, under or over, isn't listed.
#[tactic(auto, unfolding(crate::specs::Listing::ending, crate::specs::Text::noted, trace::specs::Survey::status_of))]
fn write_ending<const N: usize>(out: &mut ArrayString<N>, answer: Result<Reading, Refusal>)
    requires { HasRoom N out.old (ending (read_answer answer)) }
    ensures { out.new.bytes ≡ out.old.bytes ++ ending (read_answer answer) }
{
    let status = Status::of(answer);
    out.push_str(" ");
    match answer {
        Ok(v) if status.is_read() => write_line(out, status_name(status), &v.values()),
        Ok(v) => {
            let numbers = [v.step, v.wrong, v.marks, v.marked_wrong];
            write_line(out, status_name(status), &numbers)
        }
        Err(_) => write_line(out, status_name(status), &[]),
    }
}

// A slot's line, by what a read of it answers.
#[tactic(auto, unfolding(crate::specs::Listing::slot_line))]
pub(crate) fn write_slot<const N: usize>(
    out: &mut ArrayString<N>,
    slot: u64,
    answer: Result<Reading, Refusal>,
)
    requires { HasRoom N out.old (slot_line slot (read_answer answer)) }
    ensures { out.new.bytes ≡ out.old.bytes ++ slot_line slot (read_answer answer) }
{
    write_decimal(out, slot);
    write_ending(out, answer);
}

// The last line: the number of slots, and how many are blank, read, over, under, lost and bad.
pub(crate) fn write_total<const N: usize>(out: &mut ArrayString<N>, slots: u64, counts: Counts)
    requires { HasRoom N out.old (total_line slots counts) }
    ensures { out.new.bytes ≡ out.old.bytes ++ total_line slots counts }
{
    let [blank, read, over, under, lost, bad] = counts.values();
    let numbers = [slots, blank, read, over, under, lost, bad];
    write_line(out, "total", &numbers);
}

// The line of a refused call, and the only one of a refused file.
pub(crate) fn write_refused<const N: usize>(out: &mut ArrayString<N>, number: u64)
    requires { HasRoom N out.old (refused_line number) }
    ensures { out.new.bytes ≡ out.old.bytes ++ refused_line number }
{
    write_line(out, "refused", &[number]);
}
