// The survey of a file in words.
ghost use Rattle.std.specs.Prelude.{◌≡◌, ◌++◌};
ghost use Rattle.trace.specs.Answers.{refusal_number};
ghost use Rattle.lines.specs.Input.{InputBuffer, read_into};
ghost use Rattle.lines.specs.Report.{report_line, pressure_lines, status_note, status_line, count_lines, refusal_note, report};
ghost use Rattle.lines.specs.ContractsOfSteps.{HasRoom};

use crate::input::{INPUT, file_in, survey_file};
use crate::line::{status_name, write_noted};
use arrayvec::ArrayString;
use trace::{Counts, Pressures, Refusal, Status};

// Every report fits: pressures in at most 126 bytes, the slots in 27, each status in 100.
pub const REPORT: usize = 753;

// A name, a number, a note.
fn write_number<const N: usize>(out: &mut ArrayString<N>, name: &str, number: u64, note: &str)
    requires { HasRoom N out.old (report_line name.now number note.now) }
    ensures { out.new.bytes ≡ out.old.bytes ++ report_line name.now number note.now }
{
    write_noted(out, name, &[number], note);
}

// Smallest, largest and mean, or that there are none.
fn write_pressures<const N: usize>(out: &mut ArrayString<N>, pressures: Option<Pressures>)
    requires { HasRoom N out.old (pressure_lines pressures) }
    ensures { out.new.bytes ≡ out.old.bytes ++ pressure_lines pressures }
{
    match pressures {
        Some(p) => {
            write_number(out, "smallest pressure", p.smallest, "");
            write_number(out, "largest pressure", p.largest, "");
            write_number(out, "mean pressure", p.mean, ", rounded down");
        }
        None => out.push_str("no pressure: nothing to set a limit from\n"),
    }
}

// What a status means.
fn status_note(status: Status) -> &'static str
    ensures { result.now ≡ status_note status }
{
    match status {
        Status::Blank => ": nothing is stored",
        Status::Read => ": pressures, 1 to 4094; smallest, largest and mean are of these alone",
        Status::Over => ": the converter topped out at 4095, and the pressure is unknown",
        Status::Under =>
            ": the converter gave 0, as with the plug out, and the pressure is unknown",
        Status::Lost => ": too much is damaged to say what the reading was",
        Status::Bad => ": bytes that no call writes",
    }
}

// How many slots have a status, with what it means.
#[tactic(auto, unfolding(crate::specs::Report::status_line))]
fn write_status<const N: usize>(out: &mut ArrayString<N>, status: Status, number: u64)
    requires { HasRoom N out.old (status_line status number) }
    ensures { out.new.bytes ≡ out.old.bytes ++ status_line status number }
{
    write_number(out, status_name(status), number, status_note(status));
}

// The number of slots, and how many of each status.
fn write_counts<const N: usize>(out: &mut ArrayString<N>, slots: u64, counts: Counts)
    requires { HasRoom N out.old (count_lines slots counts) }
    ensures { out.new.bytes ≡ out.old.bytes ++ count_lines slots counts }
{
    write_number(out, "slots", slots, "");
    write_status(out, Status::Read, counts.read);
    write_status(out, Status::Over, counts.over);
    write_status(out, Status::Under, counts.under);
    write_status(out, Status::Lost, counts.lost);
    write_status(out, Status::Bad, counts.bad);
    write_status(out, Status::Blank, counts.blank);
}

// Why a survey refuses a file.
fn refusal_note(refusal: Refusal) -> &'static str
    ensures { result.now ≡ refusal_note (refusal_number refusal) }
{
    match refusal {
        Refusal::BufferShort => ": the file has fewer than 8 bytes, or more than 65536",
        _ => ": the file does not end with the trailer of a trace that fits in it",
    }
}

// The report of a file of which a program read `size` bytes into its buffer.
#[tactic(auto, using(crate::proofs::Lengths::report_lengths), unfolding(crate::specs::Report::report))]
pub fn report(input: &[u8; INPUT], size: usize) -> ArrayString<REPORT>
    ensures input_buffer { InputBuffer input.now }
    ensures text { result.bytes ≡ report (read_into input.now size) }
{
    let mut out = ArrayString::new();
    match survey_file(file_in(input, size)) {
        Ok(survey) => {
            write_pressures(&mut out, survey.pressures);
            write_counts(&mut out, survey.slots, survey.counts);
        }
        Err(refusal) => {
            let note = refusal_note(refusal);
            write_number(&mut out, "refused", refusal.number(), note);
        }
    }
    out
}
