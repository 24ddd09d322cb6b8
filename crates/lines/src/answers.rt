// The answers to a script's lines. Each is written into a string that the caller lends, in place of what it held: an answer has room for the longest buffer,
// and a string of that size is too long to make anew, or to move, for each line.
ghost use Rattle.std.specs.Prelude.{◌≡◌, [], ◌∷◌, ◌++◌, ◌≤◌};
ghost use Rattle.codes.specs.Answer.{accepted, map_answer};
ghost use Rattle.trace.specs.Answers.{values_answer, done_answer, load_answer, read_answer, reading_values, survey_answer, pressures_values};
ghost use Rattle.lines.specs.Text.{spaced};
ghost use Rattle.lines.specs.Answers.{answer_line, absences, survey_line, bytes_line};
ghost use Rattle.lines.specs.ContractsOfSteps.{HasRoom};

use crate::input::LONGEST;
use crate::line::{write_line, write_refused};
use crate::text::{write_hexes, write_numbers};
use arrayvec::ArrayString;
use trace::{Pressures, Reading, Refusal, Survey};

// Every answer fits: two digits for each byte of the longest buffer, and a newline.
pub const ANSWER: usize = 2 * LONGEST + 1;

// The line of a few values.
#[tactic(auto, using(crate::proofs::Lengths::refused_short))]
fn values_line<const N: usize>(answer: Result<[u64; N], Refusal>, out: &mut ArrayString<ANSWER>)
    requires { N ≤ 5 }
    ensures { out.new.bytes ≡ answer_line (values_answer answer.entry) }
{
    out.clear();
    match answer {
        Ok(values) => write_line(out, "ok", &values),
        Err(refusal) => write_refused(out, refusal.number()),
    }
}

// The line of a make, put, flip, mark or clear.
pub fn done_line(answer: Result<(), Refusal>, out: &mut ArrayString<ANSWER>)
    ensures { out.new.bytes ≡ answer_line (done_answer answer) }
{
    values_line(answer.map(|()| []), out);
}

// The line of one number: what a load hands back, or how many bytes a file had that was opened or saved.
pub fn number_line(number: u64, out: &mut ArrayString<ANSWER>)
    ensures { out.new.bytes ≡ answer_line (accepted (number ∷ [])) }
{
    values_line(Ok([number]), out);
}

// The line of a load: the number handed back.
pub fn load_line(answer: Result<u32, Refusal>, out: &mut ArrayString<ANSWER>)
    ensures { out.new.bytes ≡ answer_line (load_answer answer) }
{
    let values = answer.map(
        |number|
            ensures { result ≡ number ∷ [] }
        { [u64::from(number)] },
    );
    values_line(values, out);
}

// The line of a read: step, reading, wrong, marks, marked wrong.
pub fn read_line(answer: Result<Reading, Refusal>, out: &mut ArrayString<ANSWER>)
    ensures { out.new.bytes ≡ answer_line (map_answer reading_values (read_answer answer)) }
{
    values_line(answer.map(Reading::values), out);
}

// Smallest, largest and mean, or a `-` for each.
#[tactic(auto, unfolding(crate::specs::Text::each))]
fn write_pressures<const N: usize>(out: &mut ArrayString<N>, pressures: Option<Pressures>)
    requires { HasRoom N out.old (spaced (pressures_values pressures) ++ absences pressures) }
    ensures { out.new.bytes ≡ out.old.bytes ++ (spaced (pressures_values pressures) ++ absences pressures) }
{
    match pressures {
        Some(p) => write_numbers(out, &p.values()),
        None => out.push_str(" - - -"),
    }
}

// The line of an accepted survey: its values, and a `-` for each of smallest, largest and mean that is absent.
fn write_survey<const N: usize>(out: &mut ArrayString<N>, survey: Survey)
    requires { HasRoom N out.old (survey_line (accepted survey)) }
    ensures { out.new.bytes ≡ out.old.bytes ++ survey_line (accepted survey) }
{
    out.push_str("ok");
    write_numbers(out, &survey.counts_and_sum());
    write_pressures(out, survey.pressures);
    out.push_str("\n");
}

// The line of a survey: blank, read, over, under, lost, bad, sum, smallest, largest, mean.
#[tactic(auto, using(crate::proofs::Lengths::survey_short, crate::proofs::Lengths::refused_short))]
pub fn survey_line(answer: Result<Survey, Refusal>, out: &mut ArrayString<ANSWER>)
    ensures { out.new.bytes ≡ survey_line (survey_answer answer) }
{
    out.clear();
    match answer {
        Ok(survey) => write_survey(out, survey),
        Err(refusal) => write_refused(out, refusal.number()),
    }
}

// The line of a buffer's bytes, in hexadecimal; of more than the longest buffer has, the first.
#[tactic(auto, using(crate::proofs::Lengths::hexes_short, std::proofs::lemmas::List::take_min), unfolding(crate::specs::Answers::bytes_line))]
pub fn bytes_line(bytes: &[u8], out: &mut ArrayString<ANSWER>)
    ensures { out.new.bytes ≡ bytes_line bytes.now }
{
    out.clear();
    write_hexes(out, &bytes[..LONGEST.min(bytes.len())]);
    out.push_str("\n");
}
