use sipl_plans::{Answer, Reason};
use std::sync::atomic::{AtomicU64, Ordering};

/// How many answers ended in which way, and how many events there were.
#[derive(Drop)]
pub struct Counts {
    /// The events.
    pub events: AtomicU64,
    /// Answers with targets.
    pub targets: AtomicU64,
    /// Those without targets, for the reason `NoAddress`; and so on.
    pub no_address: AtomicU64,
    /// `NotAvailable`.
    pub not_available: AtomicU64,
    /// `NoTransport`.
    pub no_transport: AtomicU64,
    /// `AllHeld`.
    pub all_held: AtomicU64,
}

impl Counts {
    /// None yet.
    pub fn new() -> Counts {
        Counts {
            events: AtomicU64::new(0),
            targets: AtomicU64::new(0),
            no_address: AtomicU64::new(0),
            not_available: AtomicU64::new(0),
            no_transport: AtomicU64::new(0),
            all_held: AtomicU64::new(0),
        }
    }

    /// Counts an answer.
    pub fn count_answer(&self, answer: &Answer) {
        let count = match answer {
            Answer::Targets(_) => &self.targets,
            Answer::None(Reason::NoAddress) => &self.no_address,
            Answer::None(Reason::NotAvailable) => &self.not_available,
            Answer::None(Reason::NoTransport) => &self.no_transport,
            Answer::None(Reason::AllHeld) => &self.all_held,
        };
        count.fetch_add(1, Ordering::SeqCst);
    }

    /// Counts the events up to the one of this number.
    pub fn count_event(&self, number: u64) {
        self.events
            .fetch_max(number.saturating_add(1), Ordering::SeqCst);
    }
}
