// The search through all codewords. They are this program's own, and what the library encodes is compared with them.
use crate::codewords::codeword;
use crate::lists::ALL;
use crate::samples::SAMPLES;
use crate::words::{Word, messages};

// The words that are tried: the samples, and behind them what the lists leave in slots.
pub(crate) const WORDS: usize = SAMPLES + ALL;

// The codewords that are near a word, by their messages.
#[derive(Clone, Copy)]
pub(crate) enum Near {
    None,
    One(u64),
    Several,
}

// A word that is tried, and what the search found for it: the near codewords, and the message of the codeword that equals it.
#[derive(Clone, Copy)]
pub(crate) struct Tried {
    pub word: Word,
    pub near: Near,
    pub equal: Option<u64>,
}

impl Tried {
    // Of which nothing is found yet.
    pub(crate) fn new(word: Word) -> Tried {
        Tried {
            word,
            near: Near::None,
            equal: None,
        }
    }

    // Holds a message's codeword against the word.
    fn hold(&mut self, codeword: u64, message: u64) {
        if self.word.is_near(codeword) {
            self.near = match self.near {
                Near::None => Near::One(message),
                _ => Near::Several,
            };
        }
        if self.word.bits == codeword {
            self.equal = Some(message);
        }
    }
}

// Holds every codeword of a code against each word, and answers how many messages the library encodes otherwise.
pub(crate) fn search(code: u32, tried: &mut [Tried; WORDS]) -> u64 {
    let mut otherwise = 0;
    for message in 0..messages(code) {
        let codeword = codeword(code, message);
        for word in tried.iter_mut() {
            word.hold(codeword, message);
        }
        if codes::encode(u64::from(code), message) != Ok(codeword) {
            otherwise += 1;
        }
    }
    otherwise
}
