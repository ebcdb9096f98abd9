//! How much a line matters, and which lines are written.
ghost use Rattle.std.specs.Prelude.{◌≡◌, ◌↔◌, ◌≤◌, IsTrue};
ghost use Rattle.sipl_log.specs.Levels.{level_name, level_rank, priority_of};
ghost use Rattle.sipl_log.specs.Verbosities.{verbosity_of, verbosity_rank};

/// How much a line matters.
#[derive(Clone, Copy, Debug, PartialEq, Eq)]
pub enum Level {
    /// Something was lost, or the program ends with a fault.
    Error,
    /// Something was refused, or is not as it should be.
    Warn,
    /// What an operator wants to know of each day.
    Info,
    /// What explains one client.
    Debug,
}

impl Level {
    /// Its name, with which a line begins.
    pub fn name(self) -> &'static str
        ensures { result.now ≡ level_name self }
    {
        match self {
            Level::Error => "error",
            Level::Warn => "warn",
            Level::Info => "info",
            Level::Debug => "debug",
        }
    }

    /// What the journal of systemd takes for its priority before a line (sd-daemon(3)).
    pub fn priority(self) -> &'static str
        ensures { result.now ≡ priority_of self }
    {
        match self {
            Level::Error => "<3>",
            Level::Warn => "<4>",
            Level::Info => "<6>",
            Level::Debug => "<7>",
        }
    }

    pub(crate) fn rank(self) -> u64
        ensures { result ≡ level_rank self }
    {
        match self {
            Level::Error => 1,
            Level::Warn => 2,
            Level::Info => 3,
            Level::Debug => 4,
        }
    }
}

/// Which lines are written: those that matter as much, or more.
#[derive(Clone, Copy, Debug, PartialEq, Eq)]
pub enum Verbosity {
    Off,
    Error,
    Warn,
    Info,
    Debug,
}

impl Verbosity {
    /// Reads its name.
    pub fn from_text(text: &str) -> Option<Verbosity>
        ensures { result ≡ verbosity_of text.now }
    {
        match text {
            "off" => Some(Verbosity::Off),
            "error" => Some(Verbosity::Error),
            "warn" => Some(Verbosity::Warn),
            "info" => Some(Verbosity::Info),
            "debug" => Some(Verbosity::Debug),
            _ => None,
        }
    }

    /// Whether lines of a level are written.
    pub fn allows(self, level: Level) -> bool
        ensures { IsTrue result ↔ (level_rank level ≤ verbosity_rank self) }
    {
        level.rank() <= self.rank()
    }

    pub(crate) fn rank(self) -> u64
        ensures { result ≡ verbosity_rank self }
    {
        match self {
            Verbosity::Off => 0,
            Verbosity::Error => 1,
            Verbosity::Warn => 2,
            Verbosity::Info => 3,
            Verbosity::Debug => 4,
        }
    }
}
