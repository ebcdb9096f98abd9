//! Laws of the files. The functions do nothing: their contracts are the laws.
ghost use Rattle.std.specs.Prelude.{◌≡◌, ℕ, ◌<◌, ◌≤◌, ◌^◌, List, ◌++◌, length, take};
ghost use Rattle.std.specs.List.{AllByRecursion};
ghost use Rattle.sha2.specs.Sha256.{sha256};
ghost use Rattle.sipl_commits.specs.Commits.{after, line_text, link_text, next_point, written};
ghost use Rattle.sipl_commits.specs.Cuts.{AreAllApart, AreApart, IsLeftOf, IsPlain, ReadsSome};
ghost use Rattle.sipl_commits.specs.Logs.{IsLog, LogFails, log_head, log_text};
ghost use Rattle.sipl_commits.specs.Seals.{Octets, sealed};
ghost use Rattle.sipl_commits.specs.States.{state_digest, state_line};
ghost use Rattle.sipl_commits.specs.Tails.{HasNoNext, IsDamaged, IsTorn};
ghost use Rattle.sipl_commits.specs.declared.fault.LogFault.{LogFault};
ghost use Rattle.sipl_commits.specs.declared.fault.LogFault.TheVariants.{Memory, Head};
ghost use Rattle.sipl_commits.specs.declared.point.Point.{Point};

/// Octets are a log in one way: no two lists of commits are read of them.
pub fn logs_have_one_reading()
    ensures { (octets : Octets) (p : Point) (bodies others : List Octets) (tail rest : Octets)
        → length octets < 2 ^ 64 → IsLog octets p bodies tail → IsLog octets p others rest
        → (bodies ≡ others) × (tail ≡ rest) }
{}

/// No log is refused, but where an allocation fails.
pub fn no_log_is_refused()
    ensures { (octets : Octets) (p : Point) (bodies : List Octets) (tail : Octets) (fault : LogFault)
        → length octets < 2 ^ 64 → length p.digest ≡ 32 → IsLog octets p bodies tail
        → LogFails fault octets p → fault ≡ Memory }
{}

/// A write of a commit that was cut anywhere before its end is torn, where the body has no tab.
pub fn cut_writes_are_torn()
    ensures { (p : Point) (body : Octets) (n : ℕ) → IsPlain body → n < length (written p body)
        → IsTorn p (take n (written p body)) }
{}

/// A write of a commit of which octets were lost, at its end or as zeros, is torn, where the body has no tab,
/// unless the commit is read there, or its line and another text have one digest.
pub fn unfinished_writes_are_torn()
    ensures { (p : Point) (body left : Octets) → IsPlain body → IsLeftOf (written p body) left
        → HasNoNext p left
        → ((other : Octets) → AreApart other (line_text (next_point p body) (length body)))
        → IsTorn p left }
{}

/// A log that was cut anywhere after its head is a log of some of its first commits, where no body has a tab.
pub fn cut_logs_have_their_first_commits()
    ensures { (p : Point) (bodies : List Octets) (n : ℕ) → AllByRecursion IsPlain bodies
        → length (log_head p) ≤ n → ReadsSome (take n (log_text p bodies)) p bodies }
{}

/// A log that was cut within its head is refused at its first line.
pub fn cut_heads_are_refused()
    ensures { (p : Point) (n : ℕ) → length p.digest ≡ 32 → n < length (log_head p)
        → LogFails Head (take n (log_head p)) p }
{}

/// Octets that do not begin with the next commit, and have a commit after their first octet, are damaged.
pub fn commits_before_others_are_damaged()
    ensures { (p q : Point) (before body rest : Octets) → 0 < length before
        → HasNoNext p (before ++ written q body ++ rest)
        → IsDamaged p (before ++ written q body ++ rest) }
{}

/// A commit whose body was replaced by another of the same length is read only where two texts have one
/// digest.
pub fn other_bodies_have_one_digest()
    ensures { (p : Point) (body other found rest more : Octets) → length other ≡ length body
        → length body < 2 ^ 64 → length found < 2 ^ 64
        → sealed (line_text (next_point p body) (length body)) ++ (other ++ rest)
        ≡ written p found ++ more
        → sha256 (link_text p body) ≡ sha256 (link_text p other) }
{}

/// After one point, the digest of the last of so many commits stands for all of them, unless two of their
/// texts have one digest.
pub fn last_digest_stands_for_all()
    ensures { (p : Point) (bodies others : List Octets) → length p.digest ≡ 32
        → length bodies ≡ length others
        → (after p bodies).digest ≡ (after p others).digest
        → AreAllApart p bodies p others → bodies ≡ others }
{}

/// The digest of a state stands for it, unless two texts have one digest.
pub fn digest_stands_for_the_state()
    ensures { (body other : Octets) → state_digest body ≡ state_digest other
        → AreApart (state_line ++ body) (state_line ++ other) → body ≡ other }
{}
