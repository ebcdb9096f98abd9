ghost use Rattle.std.specs.Prelude.{◌≡◌};
ghost use Rattle.sipl_commits.specs.Commits.{next_point};

use sha2::{Digest, Sha256};

/// A point in the chain of commits: the number of the last one, and its digest.
#[derive(Clone, Copy, Debug, PartialEq, Eq)]
pub struct Point {
    /// The number.
    pub number: u64,
    /// The digest.
    pub digest: [u8; 32],
}

impl Point {
    /// The point after a commit of this body.
    #[tactic(auto, unfolding(crate::specs::Seals::number_octets))]
    pub fn next(&self, body: &[u8]) -> Point
        ensures { result ≡ next_point self.now body.now }
    {
        let number = self.number.saturating_add(1);
        let octets = number.to_be_bytes();
        let mut hasher = Sha256::new();
        hasher.update(octets.as_slice());
        hasher.update(self.digest.as_slice());
        hasher.update(body);
        Point {
            number,
            digest: hasher.finalize(),
        }
    }
}
