ghost use Rattle.std.specs.Prelude.{◌≡◌, length};
ghost use Rattle.sipl_srv.specs.Draws.{words_of, words_of_seed};

use crate::fault::DrawsFault;
use rand_core::utils::NextWord;
use rand_pcg::Pcg32;
use std::marker::Model;

/// The number of words that order up to 32 picks.
const WORDS: usize = 32;

/// 32 random words of 32 bits, one for each pick that is chosen (RFC 2782, "Usage rules").
/// Contracts see them as a list.
#[derive(Clone, Copy, Debug, PartialEq, Eq)]
pub struct Draws {
    words: [u32; 32],
}

impl Model for Draws {
    ghost use Rattle.std.specs.Prelude.{◌≡◌, List, ℕ, length};

    ghost Value = { List ℕ };

    ghost view = { λ draws. draws.words };

    ghost invariant = { λ draws. length draws.words ≡ 32 };

    ghost inverse = { λ words. record { words = words } };
}

impl Draws {
    /// The given words, followed by words of 0. V1 for more than 32 words. Does not allocate.
    pub fn from_words(given: &[u32]) -> Result<Self, DrawsFault>
        ensures { result ≡ words_of given.now }
    {
        if given.len() > WORDS {
            return Err(DrawsFault::TooManyWords);
        }
        let mut words = [0; 32];
        words[..given.len()].copy_from_slice(given);
        Ok(Draws { words })
    }

    /// The first 32 words of the generator Pcg32 (PCG XSH RR 64/32) that is started at the seed, on
    /// stream 0. Does not allocate.
    pub fn from_seed(seed: u64) -> Self
        ensures { result ≡ words_of_seed seed }
    {
        let mut generator = Pcg32::new(seed, 0);
        let mut words = [0; 32];
        for word in &mut words {
            *word = generator.next_word();
        }
        Draws { words }
    }

    /// The 32 words.
    pub fn words(&self) -> &[u32]
        ensures value { result.now ≡ self.now }
        ensures len { length self.now ≡ 32 }
    {
        &self.words
    }
}
