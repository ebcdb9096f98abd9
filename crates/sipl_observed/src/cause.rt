ghost use Rattle.std.specs.Prelude.{◌≡◌};
ghost use Rattle.sipl_observed.specs.Causes.{cause_name};

/// Why a client has no session, or not any more.
#[derive(Clone, Copy, Debug, PartialEq, Eq)]
pub enum Cause {
    /// As many clients are connected as there may be.
    Busy,
    /// There is no thread for it.
    Threads,
    /// It has sent nothing for too long.
    Idle,
    /// It takes its replies too slowly.
    Slow,
    /// What it sends begins as a request of HTTP does.
    Http,
}

impl Cause {
    /// Its name, in the log and in metrics.
    pub fn name(self) -> &'static str
        ensures { result.now ≡ cause_name self }
    {
        match self {
            Cause::Busy => "busy",
            Cause::Threads => "threads",
            Cause::Idle => "idle",
            Cause::Slow => "slow",
            Cause::Http => "http",
        }
    }
}
