// The codes as the tests take them.
ghost use Rattle.std.specs.Prelude.{◌≤◌, ◌<◌};

// A code's number, the width of its words, and the number of its steps.
#[derive(Clone, Copy)]
pub(crate) struct Code {
    pub number: u64,
    pub width: u64,
    pub steps: u64,
    ghost some_width: { 0 < width },
    ghost small_width: { width ≤ 40 },
    ghost some_steps: { 0 < steps },
}

impl Code {
    // The code with a number, 1 to 4: of 36 bits, or of 40 from 3 on.
    pub(crate) fn new(number: u64) -> Code {
        if number <= 2 {
            Code {
                number,
                width: 36,
                steps: 128,
            }
        } else {
            Code {
                number,
                width: 40,
                steps: 1024,
            }
        }
    }
}
