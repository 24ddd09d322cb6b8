// What the trace calls answer.
ghost use Rattle.std.specs.Prelude.{◌≡◌};
ghost use Rattle.trace.specs.Answers.{refusal_number, reading_values, counts_values, three_values, counts_and_sum, both_parts, survey_values};
ghost use Rattle.trace.specs.declared.answer.Refusal.TheVariants.{Word};

// Why a call is refused: as a word call is, or for a reason of the trace's own.
#[derive(Clone, Copy, Debug, PartialEq, Eq)]
pub enum Refusal {
    Word(codes::Refusal),
    WrongCount,
    BufferShort,
    TrailerUnfit,
    NoSlot,
    SlotBad,
    SlotBlank,
    NoPosition,
    TooLarge,
    TooMany,
    PastEnd,
    Uneven,
}

impl Refusal {
    // The refusal's number.
    pub fn number(self) -> u64
        ensures { result ≡ refusal_number self }
    {
        match self {
            Refusal::Word(r) => r.number(),
            Refusal::WrongCount => 6,
            Refusal::BufferShort => 7,
            Refusal::TrailerUnfit => 8,
            Refusal::NoSlot => 9,
            Refusal::SlotBad => 10,
            Refusal::SlotBlank => 11,
            Refusal::NoPosition => 12,
            Refusal::TooLarge => 13,
            Refusal::TooMany => 14,
            Refusal::PastEnd => 15,
            Refusal::Uneven => 16,
        }
    }
}

impl From<codes::Refusal> for Refusal {
    ghost from_gives = { λ r e. e ≡ Word r };

    fn from(r: codes::Refusal) -> Self {
        Self::Word(r)
    }
}

// A corrected message's step and reading, the number of unmarked positions that were wrong, that of the marks, and that of the marked positions that were
// wrong.
#[derive(Clone, Copy)]
pub struct Reading {
    pub step: u64,
    pub reading: u64,
    pub wrong: u64,
    pub marks: u64,
    pub marked_wrong: u64,
}

impl Reading {
    // Step, reading, wrong, marks, marked wrong.
    pub fn values(self) -> [u64; 5]
        ensures { result ≡ reading_values self }
    {
        [
            self.step,
            self.reading,
            self.wrong,
            self.marks,
            self.marked_wrong,
        ]
    }
}

// How many slots have each status.
#[derive(Clone, Copy, Default)]
pub struct Counts {
    pub blank: u64,
    pub read: u64,
    pub over: u64,
    pub under: u64,
    pub lost: u64,
    pub bad: u64,
}

impl Counts {
    // Blank, read, over, under, lost, bad.
    pub fn values(self) -> [u64; 6]
        ensures { result ≡ counts_values self }
    {
        [
            self.blank, self.read, self.over, self.under, self.lost, self.bad,
        ]
    }
}

// Smallest, largest and mean of some readings 1 to 4094.
#[derive(Clone, Copy)]
pub struct Pressures {
    pub smallest: u64,
    pub largest: u64,
    pub mean: u64,
}

impl Pressures {
    // Smallest, largest, mean.
    pub fn values(self) -> [u64; 3]
        ensures { result ≡ three_values self }
    {
        [self.smallest, self.largest, self.mean]
    }
}

// The number of slots and their counts; the sum of the readings 1 to 4094, and more of them where there are any.
#[derive(Clone, Copy)]
pub struct Survey {
    pub slots: u64,
    pub counts: Counts,
    pub sum: u64,
    pub pressures: Option<Pressures>,
}

impl Survey {
    // The counts, then the sum.
    pub fn counts_and_sum(self) -> [u64; 7]
        ensures { result ≡ counts_and_sum self }
    {
        let [blank, read, over, under, lost, bad] = self.counts.values();
        [blank, read, over, under, lost, bad, self.sum]
    }

    // The counts and the sum, then smallest, largest and mean where they are present.
    pub fn values(self) -> ([u64; 7], Option<[u64; 3]>)
        ensures { both_parts result.0 result.1 ≡ survey_values self }
    {
        (self.counts_and_sum(), self.pressures.map(Pressures::values))
    }
}
