// The generator of a fault load: the published Numerical Recipes generator. The wrapping multiply and the wrapping add that the scope names are std's.
ghost use Rattle.std.specs.Prelude.{◌≡◌, ◌<◌};
ghost use Rattle.trace.specs.Load.{advance, rank_of};

// The number goes on as itself times the first plus the second, modulo 2 to the power 32.
const MULTIPLIER: u32 = 1664525;

const INCREMENT: u32 = 1013904223;

// A draw takes the new number divided by this.
const DIVISOR: u32 = 65536;

// A generator, by its number.
#[derive(Clone, Copy)]
pub(crate) struct Generator {
    pub number: u32,
}

impl Generator {
    // A draw: the generator after it, and which of so many positions is picked, counted upward from 0. There are some: a type of numbers above 0 would be no
    // plainer than the clause.
    fn draw(self, unpicked: u64) -> (Generator, u64)
        requires { 0 < unpicked }
        ensures { (result.0.number ≡ advance self.number) × (result.1 ≡ rank_of self.number unpicked) }
    {
        let next = self.number.wrapping_mul(MULTIPLIER).wrapping_add(INCREMENT);
        let rank = u64::from(next / DIVISOR) % unpicked;
        (Generator { number: next }, rank)
    }

    // A draw from a lent generator, which has gone on afterwards.
    pub(crate) fn draw_from(&mut self, unpicked: u64) -> u64
        requires { 0 < unpicked }
        ensures { (self.new.number ≡ advance self.old.number)
            × (result ≡ rank_of self.old.number unpicked) }
    {
        let (next, rank) = self.draw(unpicked);
        *self = next;
        rank
    }
}
