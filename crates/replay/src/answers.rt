// Answers as numbers.
ghost use Rattle.std.specs.Prelude.{◌≡◌, ◌∷◌, length};
ghost use Rattle.trace.specs.Answers.{survey_values};
ghost use Rattle.replay.specs.Numbers.{answer_numbers};
ghost use Rattle.replay.specs.ContractsOfSteps.{answer_of, Writes};

use arrayvec::ArrayVec;
use trace::{Refusal, Survey};

// The values of an answer: at most the ten of a survey.
pub(crate) type Values = ArrayVec<u64, 10>;

// Of a survey: the counts and the sum, then smallest, largest and mean where they are present.
pub(crate) fn survey_values(s: Survey) -> Values
    ensures { result.items ≡ survey_values s }
{
    let (always, others) = s.values();
    let mut values = Values::new();
    values.try_extend_from_slice(&always).unwrap();
    if let Some(others) = others {
        values.try_extend_from_slice(&others).unwrap();
    }
    values
}

// Writes a number, the count of values and the values to the front of a slice, where it has room, and answers how many numbers they are.
fn write_numbers(out: &mut [u64], number: u64, values: &[u64]) -> Option<usize>
    ensures { Writes (number ∷ length values.now ∷ values.now) out.old out.new result }
{
    let size = 2 + values.len();
    if out.len() < size {
        return None;
    }
    out[0] = number;
    out[1] = values.len() as u64;
    out[2..size].copy_from_slice(values);
    Some(size)
}

// Writes an answer: the refusal's number or 0, the count of values, and the values.
pub(crate) fn write_answer(out: &mut [u64], answer: Result<Values, Refusal>) -> Option<usize>
    ensures { Writes (answer_numbers (answer_of answer)) out.old out.new result }
{
    match answer {
        Ok(values) => write_numbers(out, 0, &values),
        Err(r) => write_numbers(out, r.number(), &[]),
    }
}
