// A line that is taken byte by byte.
ghost use Rattle.std.specs.Prelude.{◌≡◌, ◌↔◌, Some, [], option_map, IsTrue};
ghost use Rattle.script.specs.Held.{hold};

use arrayvec::ArrayVec;

// A line has at most this many bytes: room for `hex`, and a blank and two digits for each of the 65,536 bytes of the longest buffer.
pub const LINE: usize = 200000;

// A line as far as it is taken, or none where it has more bytes than a line may have.
#[derive(Drop)]
pub struct Held {
    pub line: Option<ArrayVec<u8, LINE>>,
}

impl Held {
    // A line of which nothing is taken.
    pub fn new() -> Self
        ensures { option_map (λ l. l.items) result.line ≡ Some [] }
    {
        Held {
            line: Some(ArrayVec::new()),
        }
    }

    // Whether nothing is taken.
    pub fn is_empty(&self) -> bool
        ensures { IsTrue result ↔ (option_map (λ l. l.items) self.now.line ≡ Some []) }
    {
        match &self.line {
            Some(line) => line.is_empty(),
            None => false,
        }
    }

    // Lets go of what is taken. Only a line that was too long is made anew, since that takes as long as the longest line does.
    pub fn clear(&mut self)
        ensures { option_map (λ l. l.items) self.new.line ≡ Some [] }
    {
        match &mut self.line {
            Some(line) => line.clear(),
            None => *self = Held::new(),
        }
    }

    // Takes one more byte.
    pub fn hold(&mut self, byte: u8)
        ensures { option_map (λ l. l.items) self.new.line ≡ hold byte (option_map (λ l. l.items) self.old.line) }
    {
        if let Some(line) = &mut self.line {
            if line.try_push(byte).is_err() {
                self.line = None;
            }
        }
    }
}
