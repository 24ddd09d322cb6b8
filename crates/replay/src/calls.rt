// Calls as numbers.
ghost use Rattle.std.specs.Prelude.{◌≡◌, true, false, MatchOption};
ghost use Rattle.replay.specs.Numbers.{is_call};
ghost use Rattle.replay.specs.ContractsOfSteps.{BeginsWith, call_of, fits, named};

// A call, as it is read from numbers: kinds are numbers there, which is replay's format, and nowhere else. The lists of a list of puts stay in the slice
// that the call is read from.
#[derive(Clone, Copy)]
pub(crate) enum Call<'a> {
    Put {
        slot: u64,
        step: u64,
        reading: u64,
    },
    Flip {
        slot: u64,
        position: u64,
    },
    Mark {
        slot: u64,
        position: u64,
    },
    Clear {
        slot: u64,
    },
    Read {
        slot: u64,
    },
    Survey,
    Load {
        slot: u64,
        seed: u32,
        count: u64,
    },
    PutList {
        start: u64,
        steps: &'a [u64],
        readings: &'a [u64],
    },
}

// The call of a kind with these numbers, if they fit it. Of a list of puts they are its start, the count of its steps, the steps and the readings.
#[tactic(auto, unfolding(crate::specs::Numbers::count_fits, crate::specs::Numbers::call_with))]
fn call_with(kind: u64, numbers: &[u64]) -> Option<Call<'_>>
    ensures { MatchOption result (fits kind numbers.now ≡ false)
        (λ c. (fits kind numbers.now ≡ true) × (call_of c ≡ named kind numbers.now)) }
{
    match (kind, numbers) {
        (0, &[slot, step, reading]) => Some(Call::Put {
            slot,
            step,
            reading,
        }),
        (1, &[slot, position]) => Some(Call::Flip { slot, position }),
        (2, &[slot, position]) => Some(Call::Mark { slot, position }),
        (3, &[slot]) => Some(Call::Clear { slot }),
        (4, &[slot]) => Some(Call::Read { slot }),
        (5, []) => Some(Call::Survey),
        (6, &[slot, seed, count]) => Some(Call::Load {
            slot,
            seed: u32::try_from(seed).ok()?,
            count,
        }),
        (7, [start, count, lists @ ..]) => {
            let (steps, readings) = lists.split_at_checked(*count as usize)?;
            Some(Call::PutList {
                start: *start,
                steps,
                readings,
            })
        }
        _ => None,
    }
}

// The call that a list of numbers begins with, and the numbers after it.
#[tactic(auto, unfolding(crate::specs::Numbers::is_call, crate::specs::Numbers::call_in))]
pub(crate) fn next_call(xs: &[u64]) -> Option<(Call<'_>, &[u64])>
    ensures { MatchOption result (is_call xs.now ≡ false) (λ p. BeginsWith xs.now (call_of p.0) p.1.now) }
{
    let [kind, count, rest @ ..] = xs else {
        return None;
    };
    let (numbers, after) = rest.split_at_checked(*count as usize)?;
    Some((call_with(*kind, numbers)?, after))
}
