// The listing of a file.
ghost use Rattle.std.specs.Prelude.{◌≡◌, ◌++◌, ◌+◌, ◌*◌, ◌≤◌};
ghost use Rattle.arrayvec.specs.ArrayString.{array_string_len};
ghost use Rattle.trace.specs.Trace.{alone_in};
ghost use Rattle.lines.specs.Input.{InputBuffer, read_into};
ghost use Rattle.lines.specs.Listing.{slot_lines, listing};

use crate::input::{INPUT, file_in, survey_file};
use crate::line::{write_refused, write_slot, write_total};
use arrayvec::ArrayString;

// Every listing fits: 4,000 lines of at most 131 bytes, and a last one of at most 153.
pub const TEXT: usize = 524153;

// The lines of the first slots, each read by what it alone holds. How long a line is shows only where its slot is read, so the room is for the longest.
#[tactic(auto, using(crate::proofs::Lengths::slot_short), unfolding(crate::specs::Listing::slot_lines))]
fn write_slots<const N: usize>(out: &mut ArrayString<N>, file: &[u8], slots: u64)
    requires { array_string_len out.old + 131 * slots ≤ N }
    ensures lines { out.new.bytes ≡ out.old.bytes ++ slot_lines (alone_in file.now) slots }
    ensures upper_bound { array_string_len out.new ≤ array_string_len out.old + 131 * slots }
{
    for slot in 0..slots {
        write_slot(out, slot, trace::read_alone(file, slot));
    }
}

// The listing of a file of which a program read `size` bytes into its buffer, in place of what the string held.
#[tactic(auto, using(crate::proofs::Inputs::slots_few, crate::proofs::Lengths::listing_lengths), unfolding(crate::specs::Listing::listing))]
pub fn list(input: &[u8; INPUT], size: usize, out: &mut ArrayString<TEXT>)
    ensures input_buffer { InputBuffer input.now }
    ensures text { out.new.bytes ≡ listing (read_into input.now size) }
{
    let file = file_in(input, size);
    out.clear();
    match survey_file(file) {
        Ok(survey) => {
            write_slots(out, file, survey.slots);
            write_total(out, survey.slots, survey.counts);
        }
        Err(refusal) => write_refused(out, refusal.number()),
    }
}
