ghost use Rattle.std.specs.Prelude.{◌≡◌, ◌≢◌, [], length, nat_eq, true, IfOk, OnErr};
ghost use Rattle.std.specs.Cmp.{partial_equiv_from_equiv};
ghost use Rattle.std.specs.Cmp.Lexicographic.{nat_list_eq_equiv, pointwise};
ghost use Rattle.sipl_book.specs.Words.{without_last_zeros};

use crate::few_words::{FewWords, MAX_FEW_WORDS};
use sipl_plans::SharedSequence;
use sipl_srv::Draws;
use std::alloc::{AllocError, Global};
use std::marker::Model;

/// 32 random words of 32 bits, which copies share. Words of 0 at the end are not stored. Contracts see
/// them as a list, as those of `Draws`.
pub struct SharedDraws {
    // The words up to the last that is not 0.
    given: Given,
}

// Words, of which a few do not allocate.
#[derive(Drop)]
enum Given {
    Few(FewWords),
    Many(SharedSequence<u32>),
}

impl Model for SharedDraws {
    ghost use Rattle.std.specs.Prelude.{List, ℕ};
    ghost use Rattle.sipl_book.specs.GivenWords.{given_words};
    ghost use Rattle.sipl_book.specs.Words.{AreGiven, with_last_zeros};

    ghost Value = { List ℕ };

    ghost view = { λ shared. with_last_zeros (given_words shared.given) };

    ghost invariant = { λ shared. AreGiven (given_words shared.given) };
}

impl SharedDraws {
    /// The words of these draws. Does not allocate where all are 0. The only error is an allocation
    /// failure.
    #[tactic(auto, using(crate::proofs::Words::left_are_given, crate::proofs::Words::all_words))]
    pub fn of(alloc: Global, draws: &Draws) -> Result<Self, AllocError>
        ensures value { IfOk result (λ shared. shared ≡ draws.now) }
        ensures memory { OnErr result (without_last_zeros draws.now ≢ []) }
    {
        let given = without_last_zeros(draws.words());
        if given.len() <= MAX_FEW_WORDS {
            return Ok(SharedDraws {
                given: Given::Few(FewWords::from_slice(given)),
            });
        }
        let words = Vec::from_slice(alloc, given)?;
        Ok(SharedDraws {
            given: Given::Many(SharedSequence::from_vec(words)?),
        })
    }

    /// A copy, which shares the words. Does not allocate: the only error is that 2^63 others share
    /// them.
    pub fn dup(&self) -> Result<Self, AllocError>
        ensures { IfOk result (λ copy. copy ≡ self.now) }
    {
        let given = match &self.given {
            Given::Few(words) => Given::Few(words.dup()),
            Given::Many(words) => Given::Many(words.dup()?),
        };
        Ok(SharedDraws { given })
    }

    /// The words up to the last that is not 0.
    pub fn given(&self) -> &[u32]
        ensures given { result.now ≡ without_last_zeros self.now }
        ensures len { length self.now ≡ 32 }
    {
        match &self.given {
            Given::Few(words) => words.as_slice(),
            Given::Many(words) => words.as_slice(),
        }
    }

    /// The 32 words. Does not allocate.
    #[tactic(auto, using(crate::proofs::Words::words_of_left))]
    pub fn draws(&self) -> Draws
        ensures { result ≡ self.now }
    {
        match Draws::from_words(self.given()) {
            Ok(draws) => draws,
            Err(_) => unreachable!(),
        }
    }
}

impl PartialEq for SharedDraws {
    ghost eq = { pointwise nat_eq };

    ghost laws = { partial_equiv_from_equiv nat_list_eq_equiv };

    #[tactic(auto, using(crate::proofs::Words::same_left))]
    fn eq(&self, other: &Self) -> bool {
        self.given() == other.given()
    }
}

impl Eq for SharedDraws {
    ghost laws = { nat_list_eq_equiv };
}

// By hand, so that the proofs above see one call, and not a case for each way to keep words.
impl Drop for SharedDraws {
    fn drop(self) {
        let SharedDraws { given } = self;
        drop(given);
    }
}

// The words up to the last one that is not 0.
#[tactic(auto, using(crate::proofs::Words::zero_is_dropped, crate::proofs::Words::last_is_kept))]
fn without_last_zeros(words: &[u32]) -> &[u32]
    ensures { result.now ≡ without_last_zeros words.now }
{
    if are_zeros(words) {
        return &[];
    }
    let mut words = words;
    while let Some((0, before)) = words.split_last() {
        words = before;
    }
    words
}

// Whether each word is 0, as mostly: the words are not tested one by one.
#[tactic(auto, using(crate::proofs::Words::none_before, crate::proofs::Words::zero_is_dropped))]
fn are_zeros(words: &[u32]) -> bool
    ensures { result ≡ true → without_last_zeros words.now ≡ [] }
{
    let mut bits = 0;
    for word in words {
        bits |= *word;
    }
    bits == 0
}
