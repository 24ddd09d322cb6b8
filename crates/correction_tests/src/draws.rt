// A fixed generator of numbers, the one that the rule of the fault load names.
ghost use Rattle.std.specs.Prelude.{◌≤◌, ◌<◌};

// The generator's next number, by plain arithmetic.
pub(crate) fn draw(state: u32) -> u32 {
    ((u64::from(state) * 1664525 + 1013904223) % 4294967296) as u32
}

// A number below a limit, from the high bits of one that was drawn: the low bits repeat soon.
pub(crate) fn below(drawn: u32, limit: u64) -> u64
    requires { 0 < limit }
    ensures { result < limit }
{
    u64::from(drawn / 65536) % limit
}

// A number below a limit, or one time in nine a number from the limit on.
pub(crate) fn about(drawn: u32, limit: u64) -> u64
    requires some_limit { 0 < limit }
    requires small_limit { limit ≤ 4096 }
{
    let number = below(drawn, limit + limit / 8);
    if number < limit {
        return number;
    }
    match (number - limit) % 4 {
        0 => limit,
        1 => limit + 1,
        2 => 2 * limit,
        _ => u64::MAX,
    }
}

// A number of so many bits: the high halves of two that are drawn after a state, joined.
pub(crate) fn wide(state: u32, bits: u64) -> u64
    requires { bits ≤ 40 }
{
    let first = draw(state);
    let second = draw(first);
    ((u64::from(first >> 12) << 20) | u64::from(second >> 12)) >> (40 - bits)
}

// A state whose numbers are other ones than those that follow this state.
pub(crate) fn another(state: u32) -> u32 {
    draw(state ^ 0x5DEECE66)
}
