// The bytes that are lent.
ghost use Rattle.std.specs.Prelude.{◌≤◌};
ghost use Rattle.lines.specs.Input.{longest};

use lines::LONGEST;

// More bytes are not lent.
const SIZE: usize = LONGEST;

// A buffer, at whose front the lent bytes stand, and how many are lent. A vector of a fixed capacity would be no plainer: the bytes are written in place,
// and no byte is pushed.
#[derive(Drop)]
pub(crate) struct Buffer {
    pub(crate) bytes: [u8; SIZE],
    pub(crate) lent: usize,
    ghost within: { lent ≤ longest },
}

impl Buffer {
    // A buffer of which nothing is lent.
    pub(crate) fn new() -> Self {
        Buffer {
            bytes: [0; SIZE],
            lent: 0,
        }
    }
}
