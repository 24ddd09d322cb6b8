// The fault load by its rule alone: the positions still unpicked stand in a row, in rising order, and each draw takes one of them out.
ghost use Rattle.std.specs.Prelude.{◌<◌};

use crate::draws::{below, draw};
use crate::words::{WIDEST, bit, width};
use std::array;

// The places of a row: as many as the widest words have positions.
const PLACES: usize = WIDEST as usize;

// The picked positions, each a one, and the number handed back.
#[derive(Clone, Copy)]
pub(crate) struct Picks {
    pub positions: u64,
    pub number: u32,
}

// Takes one out of a row: those behind it move forward by a place.
fn take_out(row: &mut [u64; PLACES], taken: usize)
    requires { taken < 40 }
{
    row.copy_within(taken + 1.., taken);
}

// The picks of a load; all positions where the count is larger.
pub(crate) fn pick_all(code: u32, seed: u32, count: u64) -> Picks {
    let width = width(code);
    let kept = width - count.min(width);
    let mut unpicked: [u64; PLACES] = array::from_fn(|place| place as u64);
    let mut positions: u64 = 0;
    let mut number = seed;
    for left in (kept + 1..=width).rev() {
        number = draw(number);
        let place = below(number, left) as usize;
        positions |= bit(code, unpicked[place]).unwrap_or(0);
        take_out(&mut unpicked, place);
    }
    Picks { positions, number }
}
