// Answers, as they stand on a line.
use std::fmt;
use std::fmt::{Display, Formatter, Write};
use trace::{Reading, Refusal, Survey};

// What an accepted call answers.
pub(crate) trait Accepted {
    // Writes it.
    fn show<W: Write>(&self, f: &mut Formatter<W>) -> fmt::Result;
}

// Of a make, put, list of puts, flip, mark or clear.
impl Accepted for () {
    fn show<W: Write>(&self, f: &mut Formatter<W>) -> fmt::Result {
        write!(f, "accepted")
    }
}

// Of a load.
impl Accepted for u32 {
    fn show<W: Write>(&self, f: &mut Formatter<W>) -> fmt::Result {
        write!(f, "number handed back {self}")
    }
}

impl Accepted for Reading {
    fn show<W: Write>(&self, f: &mut Formatter<W>) -> fmt::Result {
        let [step, reading, wrong, marks, marked_wrong] = self.values();
        write!(
            f,
            "step {step}, reading {reading}, wrong {wrong}, marks {marks}, marked wrong {marked_wrong}"
        )
    }
}

impl Accepted for Survey {
    fn show<W: Write>(&self, f: &mut Formatter<W>) -> fmt::Result {
        let [blank, read, over, under, lost, bad, sum] = self.counts_and_sum();
        write!(
            f,
            "blank {blank}, read {read}, over {over}, under {under}, lost {lost}, bad {bad}, sum {sum}, "
        )?;
        let Some(pressures) = self.pressures else {
            return write!(f, "no pressures");
        };
        let [smallest, largest, mean] = pressures.values();
        write!(f, "smallest {smallest}, largest {largest}, mean {mean}")
    }
}

// What a call answers.
#[derive(Drop)]
pub(crate) struct Answer<T>(pub Result<T, Refusal>);

impl<T: Accepted> Display for Answer<T> {
    fn fmt<W: Write>(&self, f: &mut Formatter<W>) -> fmt::Result {
        match &self.0 {
            Ok(accepted) => accepted.show(f),
            Err(refusal) => write!(f, "refused {}", refusal.number()),
        }
    }
}

// The numbers of a list, as a script has them.
#[derive(Drop)]
pub(crate) struct Numbers<'a>(pub &'a [u64]);

impl Display for Numbers<'_> {
    fn fmt<W: Write>(&self, f: &mut Formatter<W>) -> fmt::Result {
        let Some((first, rest)) = self.0.split_first() else {
            return write!(f, "-");
        };
        write!(f, "{first}")?;
        for number in rest {
            write!(f, ",{number}")?;
        }
        Ok(())
    }
}
