// A few words in a value.
ghost use Rattle.std.specs.Prelude.{◌≡◌, ◌≤◌, length};

use std::marker::Model;

// The maximum number of words in a value.
pub(crate) const MAX_FEW_WORDS: usize = 2;

// At most `MAX_FEW_WORDS` words.
#[derive(Drop)]
pub(crate) struct FewWords {
    len: u8,
    words: [u32; 2],
}

impl Model for FewWords {
    ghost use Rattle.std.specs.Prelude.{ℕ, List, ◌≤◌, take};

    ghost Value = { List ℕ };

    ghost view = { λ few. take few.len few.words };

    ghost invariant = { λ few. few.len ≤ 2 };
}

impl FewWords {
    // A copy of these words.
    pub(crate) fn from_slice(words: &[u32]) -> Self
        requires { length words.now ≤ 2 }
        ensures { result ≡ words.now }
    {
        let (len, words) = match words {
            [] => (0, [0, 0]),
            [first] => (1, [*first, 0]),
            [first, second, ..] => (2, [*first, *second]),
        };
        FewWords { len, words }
    }

    // The words, in their order.
    pub(crate) fn as_slice(&self) -> &[u32]
        ensures { result.now ≡ self.now }
    {
        &self.words[..self.len as usize]
    }

    // A copy.
    pub(crate) fn dup(&self) -> Self
        ensures { result ≡ self.now }
    {
        FewWords {
            len: self.len,
            words: self.words,
        }
    }
}
