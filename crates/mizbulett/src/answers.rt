// What a call for C returns and writes.
ghost use Rattle.std.specs.Prelude.{◌≡◌, [], ◌∷◌};
ghost use Rattle.trace.specs.Answers.{values_answer, done_answer};
ghost use Rattle.mizbulett.specs.Returned.{number_of, returned, returns};

use trace::Refusal;

// 0 where a call is accepted, else the refusal's number.
pub(crate) fn number(answer: Result<(), Refusal>) -> u64
    ensures { result ≡ number_of (done_answer answer) }
{
    answer.err().map_or(0, Refusal::number)
}

// The same of a call that answers values, which are written where it is accepted.
pub(crate) fn give<const N: usize>(answer: Result<[u64; N], Refusal>, out: &mut [u64; N]) -> u64
    ensures { returned result out.new ≡ returns (values_answer answer.entry) out.old }
{
    match answer {
        Ok(values) => {
            *out = values;
            0
        }
        Err(r) => r.number(),
    }
}

// A lone value.
pub(crate) fn lone(value: u64) -> [u64; 1]
    ensures { result ≡ value ∷ [] }
{
    [value]
}
