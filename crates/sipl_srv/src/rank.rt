ghost use Rattle.std.specs.Prelude.{◌≡◌};

/// What the order of servers depends on (RFC 2782): a priority and a weight.
pub trait Ranked {
    ghost use Rattle.sipl_srv.specs.Order.{Rank};

    ghost rank: { Self → Rank };

    /// Servers of a lesser priority come first.
    fn priority(&self) -> u16
        ensures { result ≡ (rank self.now).priority };

    /// The server's share of the choices among those of its priority.
    fn weight(&self) -> u16
        ensures { result ≡ (rank self.now).weight };
}
