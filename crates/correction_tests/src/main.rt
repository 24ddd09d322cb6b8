// Writing, strict reading, mending and the trace calls, tried against a search through all codewords: this program makes each codeword of a
// code by the scope's definition, compares it with the library's, and holds it against every word that is tried.
// Most of the words are samples, tried by `correct` and `decode`; the others are left in slots by random lists of trace calls, whose
// answers and bytes are compared too, and are read besides. The scope's words to try that are no theorems are shown.
#![tactic(auto)]

mod codewords;
mod compare;
mod draws;
mod lists;
mod picks;
mod samples;
mod search;
mod slots;
mod words;

use compare::{
    Answered, Disagrees, Outcome, correct_outcome, count, decode_outcome, read_outcomes,
};
use lists::{Left, play_all};
use samples::{FAULTS, FILLED, NOISE, SAMPLES, samples};
use search::{Tried, WORDS, search};
use slots::Group;
use std::io;
use words::{Word, columns, messages, ones, width};

// An answer on a line.
fn show(rt: &impl Print, code: u32, word: u64, marks: u64) -> io::Result<()> {
    let digits = columns(code);
    print!(rt; "code {code} mends {word:0digits$x} under {marks:0digits$x}: ")?;
    match codes::correct(u64::from(code), word, marks) {
        Ok(c) => println!(rt;
            "{:0digits$x}, message {}, wrong {}, marks {}, marked wrong {}",
            c.codeword, c.message, c.wrong, c.marks, c.marked_wrong
        ),
        Err(refusal) => println!(rt; "refused {}", refusal.number()),
    }
}

// How many outcomes disagree.
fn disagreements<T: PartialEq>(outcomes: &[Outcome<T>]) -> usize {
    count(outcomes, &Err(Disagrees))
}

// What `decode` gives.
fn show_decoded(rt: &impl Print, code: u32, outcomes: &[Outcome<bool>]) -> io::Result<()> {
    println!(rt;
        "code {code} decode: read {}, refused {}, disagreements {}",
        count(outcomes, &Ok(true)),
        count(outcomes, &Ok(false)),
        disagreements(outcomes)
    )
}

// How many words `correct` refuses.
fn refused(outcomes: &[Outcome<Option<u64>>]) -> usize {
    count(outcomes, &Ok(None))
}

// What `correct` gives, by the sum of the near codeword.
fn show_corrected(rt: &impl Print, code: u32, outcomes: &[Outcome<Option<u64>>]) -> io::Result<()> {
    print!(rt; "code {code} correct: mended by sum 0 to 7:")?;
    for sum in 0..=7 {
        print!(rt; " {}", count(outcomes, &Ok(Some(sum))))?;
    }
    println!(rt;
        ", refused {}, disagreements {}",
        refused(outcomes),
        disagreements(outcomes)
    )
}

// How many words of a part `correct` refuses, after the part's name.
fn show_part(rt: &impl Print, name: &str, outcomes: &[Outcome<Option<u64>>]) -> io::Result<()> {
    print!(rt; "{name} {} of {}", refused(outcomes), outcomes.len())
}

// How many words of each kind `correct` refuses.
fn show_kinds(
    rt: &impl Print,
    code: u32,
    outcomes: &[Outcome<Option<u64>>; WORDS],
) -> io::Result<()> {
    print!(rt; "code {code} correct: refused ")?;
    show_part(rt, "around codewords", &outcomes[..FILLED])?;
    show_part(rt, ", marked ones or zeros", &outcomes[FILLED..FAULTS])?;
    show_part(rt, ", faults", &outcomes[FAULTS..NOISE])?;
    show_part(rt, ", noise", &outcomes[NOISE..SAMPLES])?;
    show_part(rt, ", slots", &outcomes[SAMPLES..])?;
    println!(rt; "")
}

// How many noise words have each number of marks.
fn show_noise(rt: &impl Print, code: u32, samples: [Word; SAMPLES]) -> io::Result<()> {
    let marks = samples.map(|word| ones(word.marks));
    print!(rt; "code {code} noise: words by marks 0 to 8:")?;
    for wanted in 0..=8 {
        print!(rt; " {}", count(&marks[NOISE..], &wanted))?;
    }
    println!(rt; "")
}

// What reads give, by the slot's group.
fn show_reads(rt: &impl Print, code: u32, outcomes: &[Outcome<Group>]) -> io::Result<()> {
    print!(rt; "code {code} read: slots by sum 0 to 10:")?;
    for sum in 0..=10 {
        print!(rt; " {}", count(outcomes, &Ok(Group::Sum(sum))))?;
    }
    println!(rt;
        ", above 10: {}, blank: {}, disagreements {}",
        count(outcomes, &Ok(Group::Above)),
        count(outcomes, &Ok(Group::Blank)),
        disagreements(outcomes)
    )
}

// How many calls of the lists are accepted, the loads by their count.
fn show_accepted(rt: &impl Print, code: u32, outcomes: &[Outcome<Answered>]) -> io::Result<()> {
    let width = width(code);
    print!(rt;
        "code {code} put, flip, mark, clear: accepted {}; load: accepted by count 0 to {width}:",
        count(outcomes, &Ok(Answered::Accepted))
    )?;
    for positions in 0..=width {
        print!(rt; " {}", count(outcomes, &Ok(Answered::Loaded(positions))))?;
    }
    println!(rt; "")
}

// How many calls of the lists are refused, by the refusal's number.
fn show_refused(rt: &impl Print, code: u32, outcomes: &[Outcome<Answered>]) -> io::Result<()> {
    print!(rt; "code {code} put, flip, mark, load, clear: refused by number 1 to 14:")?;
    for refusal in 1..=14 {
        print!(rt; " {}", count(outcomes, &Ok(Answered::Refused(refusal))))?;
    }
    println!(rt; ", disagreements {}", disagreements(outcomes))
}

// The words that are tried: the samples, and what the lists leave in slots. A blank slot has no ones and no marks.
fn tried_words(samples: &[Word; SAMPLES], left: &[Left]) -> [Tried; WORDS] {
    let mut tried = [Tried::new(Word { bits: 0, marks: 0 }); WORDS];
    for (tried, sample) in tried.iter_mut().zip(samples) {
        tried.word = *sample;
    }
    for (tried, left) in tried[SAMPLES..].iter_mut().zip(left) {
        if let Some(written) = left.slot {
            tried.word = written.word;
        }
    }
    tried
}

// Tries a code.
fn report(rt: &impl Print, code: u32) -> io::Result<()> {
    let samples = samples(code);
    let lists = play_all(code);
    let left = lists.map(|list| list.left);
    let mut tried = tried_words(&samples, left.as_flattened());
    let otherwise = search(code, &mut tried);
    println!(rt;
        "code {code} encode: messages {}, disagreements {otherwise}",
        messages(code)
    )?;
    show_decoded(rt, code, &tried.map(|tried| decode_outcome(code, tried)))?;
    let corrected = tried.map(|tried| correct_outcome(code, tried));
    show_corrected(rt, code, &corrected)?;
    show_kinds(rt, code, &corrected)?;
    show_noise(rt, code, samples)?;
    show_reads(
        rt,
        code,
        &read_outcomes(code, left.as_flattened(), &tried[SAMPLES..]),
    )?;
    let calls = lists.map(|list| list.calls);
    show_accepted(rt, code, calls.as_flattened())?;
    show_refused(rt, code, calls.as_flattened())
}

// The scope's words to try, and words of believable faults.
fn show_words(rt: &impl Print) -> io::Result<()> {
    show(rt, 1, 0xFE0000000, 0xFE0000000)?;
    show(rt, 1, 0, 0xFF0000000)?;
    show(rt, 1, 0x4C0000000, 0)?;
    show(rt, 2, 0xF00000000, 0)?;
    show(rt, 3, 0xF000000000, 0)?;
    show(rt, 1, 0x330000000, 0)?;
    show(rt, 3, 0x3300000000, 0)
}

// Words whose marked bits are all wrong, all right, or some of them wrong.
fn show_marked(rt: &impl Print) -> io::Result<()> {
    show(rt, 1, 0xF00000000, 0xF00000000)?;
    show(rt, 1, 0xE00000000, 0x080000000)?;
    show(rt, 1, 0, 0xFE0000000)?;
    show(rt, 1, 0x2E485A2D4, 0)?;
    show(rt, 1, 0x2E485A2D4, 0x000020000)?;
    show(rt, 1, 0x2E485A2D4, 0x000028000)?;
    show(rt, 1, 0x2E485A2D4, 0x000000001)?;
    show(rt, 3, 0x3003000065, 0xC000000003)?;
    show(rt, 3, 0xF003000065, 0xC000000003)
}

// Words, marks and codes that are unfit.
fn show_unfit(rt: &impl Print) -> io::Result<()> {
    show(rt, 1, 0x1000000000, 0)?;
    show(rt, 1, 0, 0x1000000000)?;
    show(rt, 0, 0, 0)?;
    show(rt, 5, 0, 0)?;
    show(rt, 3, 0x10000000000, u64::MAX)
}

fn main(rt: HostRuntime) -> io::Result<()> {
    show_words(&rt)?;
    show_marked(&rt)?;
    show_unfit(&rt)?;
    for code in 1..=4 {
        report(&rt, code)?;
    }
    Ok(())
}
