// Which positions a fault load flips: a draw picks one of those still unpicked.
ghost use Rattle.std.specs.Prelude.{◌≡◌, ◌<◌, ◌≤◌, length};
ghost use Rattle.trace.specs.Load.{advance, rank_of};
ghost use Rattle.trace.specs.ContractsOfLoad.{unpicked_in, unpicked_at, with_rank, LoadOf};

use crate::generator::Generator;
use crate::slot::bit;

// A load on its way, in a word of so many bits: its generator, and the word whose ones are the positions picked so far.
#[derive(Clone, Copy)]
pub(crate) struct Load {
    pub width: u64,
    pub generator: Generator,
    pub picked: u64,
    ghost narrow: { width ≤ 64 },
}

impl Load {
    // The position that so many unpicked ones stand before.
    fn unpicked_at(&self, rank: u64) -> u64
        requires { rank < length (unpicked_in self.now.width self.now.picked) }
        ensures { (result ≡ unpicked_at self.now.width self.now.picked rank) × (result < self.now.width) }
    {
        let mut before = rank;
        for position in 0..self.width {
            if (self.picked >> (self.width - 1 - position)) % 2 == 0 {
                if before == 0 {
                    return position;
                }
                before -= 1;
            }
        }
        unreachable!()
    }

    // Picks one position more, of so many still unpicked. The generator is lent for its draw.
    fn pick(&mut self, unpicked: u64)
        requires { (0 < unpicked) × (unpicked ≤ length (unpicked_in self.old.width self.old.picked)) }
        ensures width { self.new.width ≡ self.old.width }
        ensures number { self.new.generator.number ≡ advance self.old.generator.number }
        ensures picked { self.new.picked ≡ with_rank self.old.width self.old.picked (rank_of self.old.generator.number unpicked) }
    {
        let rank = self.generator.draw_from(unpicked);
        self.picked ^= bit(self.width, self.unpicked_at(rank));
    }
}

// All draws of a load.
pub(crate) fn draw_all(width: u64, seed: u32, count: u64) -> Load
    requires { (width ≤ 64) × (count ≤ width) }
    ensures { LoadOf width seed count result.generator.number result.picked }
{
    let mut load = Load {
        width,
        generator: Generator { number: seed },
        picked: 0,
    };
    for drawn in 0..count {
        load.pick(width - drawn);
    }
    load
}
