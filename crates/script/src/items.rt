// The items of an iterator, each of which may be none that can be read.
ghost use Rattle.std.specs.Prelude.{◌≡◌, ◌<◌, ◌≤◌, ◌^◌, ◌++◌, List, Option, Some, map, length, drop, option_map};
ghost use Rattle.std.specs.Iterator.{IsFinite};
ghost use Rattle.script.specs.ContractsOfSteps.{all_of, Gives};

// How many items there are, where each can be read.
pub(crate) fn count<T: Drop, I: Iterator<Item = Option<T>> + Drop>(items: I) -> Option<usize>
    requires can { I.can_next items }
    requires ends { IsFinite (I.remaining items) }
    requires fit { (all : List (Option T)) × Gives I.next_gives items all × (length all < 2 ^ 64) }
    ensures { (all : List (Option T)) → Gives I.next_gives items all → result ≡ option_map length (all_of all) }
{
    let mut n = 0;
    for item in items {
        item?;
        n += 1;
    }
    Some(n)
}

// Writes the items, each of which can be read, over the front of a buffer that has room for them.
pub(crate) fn write<T: Copy, I: Iterator<Item = Option<T>> + Drop>(items: I, buffer: &mut [T])
    requires can { I.can_next items }
    requires ends { IsFinite (I.remaining items) }
    requires fit { (all : List T) × Gives I.next_gives items (map (λ x. Some x) all) × (length all ≤ length buffer.old) }
    ensures { (all : List T) → Gives I.next_gives items (map (λ x. Some x) all) → length all ≤ length buffer.old
        → buffer.new ≡ all ++ drop (length all) buffer.old }
{
    // `enumerate`: tried, and the proof didn't close: it stayed open that its count fits 64 bits.
    let mut i = 0;
    for item in items {
        let Some(x) = item else {
            return;
        };
        buffer[i] = x;
        i += 1;
    }
}
