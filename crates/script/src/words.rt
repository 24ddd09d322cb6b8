// The words of a text.
ghost use Rattle.std.specs.Prelude.{◌≡◌, None, [], ◌∷◌, MatchOption};
ghost use Rattle.script.specs.Script.{words, put_list_of};

use crate::parts::{skip_blanks, split_word};

// The words of a text, one after the other.
#[derive(Drop)]
pub(crate) struct Words<'a>(pub(crate) &'a [u8]);

impl<'a> Iterator for Words<'a> {
    ghost use Rattle.std.specs.Iterator.{YieldsFirstBy, item_count};
    ghost use Rattle.script.specs.ContractsOfSteps.{words_left};

    type Item = &'a [u8];

    ghost next_gives = { YieldsFirstBy (λ word. word.now) words_left };

    ghost remaining = { item_count words_left };

    fn next(&mut self) -> Option<&'a [u8]> {
        let (word, rest) = split_word(skip_blanks(self.0));
        self.0 = rest;
        if word.is_empty() { None } else { Some(word) }
    }
}

// The three words of a text, which alone may be a list of puts.
pub(crate) fn three_words(text: &[u8]) -> Option<(&[u8], &[u8], &[u8])>
    ensures { MatchOption result (put_list_of (words text.now) ≡ None)
        (λ three. words text.now ≡ three.0.now ∷ (three.1.now ∷ (three.2.now ∷ []))) }
{
    let mut words = Words(text);
    let first = words.next()?;
    let second = words.next()?;
    let third = words.next()?;
    match words.next() {
        None => Some((first, second, third)),
        Some(_) => None,
    }
}
