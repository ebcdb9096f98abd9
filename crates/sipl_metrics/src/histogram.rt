ghost use Rattle.std.specs.Prelude.{◌≤◌, length};

use crate::exposition::Exposition;
use std::alloc::{AllocError, Global};
use std::sync::atomic::{AtomicU64, Ordering};

// The upper bounds of the buckets, in nanoseconds, and as seconds in the text.
const BOUNDS: [(u64, &str); 14] = [
    (10_000, "0.00001"),
    (25_000, "0.000025"),
    (50_000, "0.00005"),
    (100_000, "0.0001"),
    (250_000, "0.00025"),
    (500_000, "0.0005"),
    (1_000_000, "0.001"),
    (2_500_000, "0.0025"),
    (10_000_000, "0.01"),
    (25_000_000, "0.025"),
    (100_000_000, "0.1"),
    (250_000_000, "0.25"),
    (1_000_000_000, "1"),
    (10_000_000_000, "10"),
];

/// How many times were in which bucket.
#[derive(Drop)]
pub struct Histogram {
    buckets: Vec<AtomicU64>,
    // Those above all bounds.
    above: AtomicU64,
    sum: AtomicU64,
}

impl Histogram {
    /// No time yet.
    pub fn new(alloc: Global) -> Result<Histogram, AllocError> {
        let mut buckets = Vec::with_capacity(alloc, BOUNDS.len())?;
        for _ in &BOUNDS {
            buckets.push(AtomicU64::new(0))?;
        }
        Ok(Histogram {
            buckets,
            above: AtomicU64::new(0),
            sum: AtomicU64::new(0),
        })
    }

    /// Counts a time in nanoseconds.
    pub fn observe(&self, nanos: u64) {
        self.sum.fetch_add(nanos, Ordering::SeqCst);
        for ((bound, _), bucket) in BOUNDS.iter().zip(&self.buckets) {
            if nanos <= *bound {
                bucket.fetch_add(1, Ordering::SeqCst);
                return;
            }
        }
        self.above.fetch_add(1, Ordering::SeqCst);
    }

    /// Appends its samples: each bucket has those below, too.
    pub fn write(&self, name: &str, help: &str, out: &mut Exposition) -> Result<(), AllocError> {
        out.begin(name, "histogram", help)?;
        let mut count = 0u64;
        for ((_, bound), bucket) in BOUNDS.iter().zip(&self.buckets) {
            count = count.saturating_add(bucket.load(Ordering::SeqCst));
            out.bucket(name, bound, count)?;
        }
        count = count.saturating_add(self.above.load(Ordering::SeqCst));
        out.bucket(name, "+Inf", count)?;
        out.end_histogram(name, self.sum.load(Ordering::SeqCst), count)
    }
}
