// Free bytes, slots, trailer: where a trace's parts lie in its buffer.
ghost use Rattle.std.specs.Prelude.{◌≡◌, ◌+◌, ◌^◌, ◌<◌, ◌≤◌, true, false, length, MatchResult};
ghost use Rattle.trace.specs.declared.answer.Refusal.TheVariants.{WrongCount};
ghost use Rattle.trace.specs.Refusals.{is_count};
ghost use Rattle.trace.specs.Layout.{trailer_size, distance_of, needed_for, place_from, overwrite, trailer, made};
ghost use Rattle.trace.specs.ContractsOfSteps.{Fitting, Opening, Finding};

use crate::answer::Refusal;
use crate::bytes::{number_at, store};
use codes::Code;

// The bytes of a slot's state, and of its word or marks.
pub(crate) const STATE: usize = 1;

pub(crate) const WORD: usize = 5;

// The bytes of a slot: a trace of n slots has n times as many, and then those of the trailer.
pub const SLOT: usize = STATE + WORD + WORD;

// The bytes of the trailer.
pub const TRAILER: usize = 8;

// The most slots of a trace.
const MOST_SLOTS: u64 = 4000;

// The layout that a trailer names.
const EDITION: u64 = 1;

// Where a slot's state, word and marks lie.
#[derive(Clone, Copy)]
pub(crate) struct Place {
    pub state: usize,
    pub word: usize,
    pub marks: usize,
}

// What a fit trailer says: where slot 0 lies, the number of slots, and the code. It stands beside its buffer: a struct of both would be no plainer,
// since it is needed twice, for a buffer that is read and for one that is changed.
#[derive(Clone, Copy)]
pub(crate) struct Header {
    pub start: usize,
    pub slots: usize,
    pub code: Code,
}

// A slot's place and code, beside its buffer as a header is.
#[derive(Clone, Copy)]
pub(crate) struct Found {
    pub place: Place,
    pub code: Code,
}

// How many slots a trace has.
#[derive(Clone, Copy)]
pub(crate) struct SlotCount {
    pub number: usize,
    ghost few: { number ≤ 4000 },
}

impl TryFrom<u64> for SlotCount {
    type Error = Refusal;

    ghost try_from_gives = { λ n r. MatchResult r (λ s. (is_count n ≡ true) × (s.number ≡ n)) (λ e. (is_count n ≡ false) × (e ≡ WrongCount)) };

    fn try_from(number: u64) -> Result<Self, Refusal> {
        if (1..=MOST_SLOTS).contains(&number) {
            return Ok(SlotCount {
                // `as`, here and below: a number of 64 bits fits, and `try_from` would add an error that can't come.
                number: number as usize,
            });
        }
        Err(Refusal::WrongCount)
    }
}

impl SlotCount {
    // The bytes of the slots.
    fn distance(self) -> usize
        ensures { result ≡ distance_of self.number }
    {
        SLOT * self.number
    }

    // The bytes that making needs.
    pub(crate) fn needed(self) -> usize
        ensures { result ≡ needed_for self.number }
    {
        self.distance() + TRAILER
    }
}

impl Header {
    // A slot's place and code.
    #[tactic(auto, unfolding(crate::specs::Layout::place_from))]
    pub(crate) fn slot(self, slot: usize) -> Found
        requires { (slot < self.slots) × (self.start + distance_of self.slots < 2 ^ 64) }
        ensures { result ≡ record { place = place_from self.start slot; code = self.code } }
    {
        let state = self.start + SLOT * slot;
        let word = state + STATE;
        let marks = word + WORD;
        Found {
            place: Place { state, word, marks },
            code: self.code,
        }
    }
}

// Refusal 8: whether a trailer's numbers are fit, with so many bytes before it.
#[tactic(auto, unfolding(crate::specs::Refusals::is_fit))]
fn fit(before: usize, back: u64, slots: u64, number: u64, edition: u64) -> Result<Header, Refusal>
    ensures { Fitting before back slots number edition result }
{
    if edition != EDITION {
        return Err(Refusal::TrailerUnfit);
    }
    let Ok(code) = Code::try_from(number) else {
        return Err(Refusal::TrailerUnfit);
    };
    let Ok(slots) = SlotCount::try_from(slots) else {
        return Err(Refusal::TrailerUnfit);
    };
    let size = back as usize;
    if size != slots.distance() || before < size {
        return Err(Refusal::TrailerUnfit);
    }
    Ok(Header {
        start: before - size,
        slots: slots.number,
        code,
    })
}

// Refusals 7 and 8: what a buffer's trailer says.
pub(crate) fn open(b: &[u8]) -> Result<Header, Refusal>
    ensures { Opening b.now result }
{
    if b.len() < TRAILER {
        return Err(Refusal::BufferShort);
    }
    let t = b.len() - TRAILER;
    fit(
        t,
        number_at(b, t, 4),
        number_at(b, t + 4, 2),
        number_at(b, t + 6, 1),
        number_at(b, t + 7, 1),
    )
}

// Refusals 7, 8 and 9: where a slot lies.
pub(crate) fn find(b: &[u8], slot: u64) -> Result<Found, Refusal>
    ensures { Finding b.now slot result }
{
    let h = open(b)?;
    let i = slot as usize;
    if h.slots <= i {
        return Err(Refusal::NoSlot);
    }
    Ok(h.slot(i))
}

// Writes the trailer.
#[tactic(auto, using(crate::proofs::Trailers::trailer_written))]
fn write_trailer(b: &mut [u8], at: usize, code: u64, slots: SlotCount)
    requires { at + trailer_size ≤ length b.old }
    ensures { b.new ≡ overwrite b.old at (trailer code slots.number) }
{
    store(b, at, 4, slots.distance() as u64);
    store(b, at + 4, 2, slots.number as u64);
    store(b, at + 6, 1, code);
    store(b, at + 7, 1, EDITION);
}

// Writes blank slots and the trailer at the buffer's end.
pub(crate) fn write_blank(b: &mut [u8], code: u64, slots: SlotCount)
    requires { needed_for slots.number ≤ length b.old }
    ensures { b.new ≡ made (record { code = code; slots = slots.number }) b.old }
{
    let size = slots.distance();
    let t = b.len() - TRAILER;
    b[t - size..t].fill(0);
    write_trailer(b, t, code, slots);
}
