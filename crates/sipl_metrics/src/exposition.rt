use std::alloc::{AllocError, Global};
use std::fmt::Write as _;

/// The text of metrics in the format of Prometheus, version 0.0.4.
#[derive(Drop)]
pub struct Exposition {
    text: String,
}

impl Exposition {
    /// No metric.
    pub fn new(alloc: Global) -> Exposition {
        Exposition {
            text: String::new(alloc),
        }
    }

    /// Begins a metric: what it is, and of which kind. Its samples are next.
    pub fn begin(&mut self, name: &str, kind: &str, help: &str) -> Result<(), AllocError> {
        writeln!(self.text, "# HELP {name} {help}\n# TYPE {name} {kind}")
    }

    /// A sample without labels.
    pub fn sample(&mut self, name: &str, value: u64) -> Result<(), AllocError> {
        writeln!(self.text, "{name} {value}")
    }

    /// A sample with one label, whose value has neither quotes nor line ends.
    pub fn labelled(
        &mut self,
        name: &str,
        label: &str,
        of: &str,
        value: u64,
    ) -> Result<(), AllocError> {
        writeln!(self.text, "{name}{{{label}=\"{of}\"}} {value}")
    }

    /// A bucket of a histogram: how many are at most this bound.
    pub(crate) fn bucket(&mut self, name: &str, bound: &str, count: u64) -> Result<(), AllocError> {
        writeln!(self.text, "{name}_bucket{{le=\"{bound}\"}} {count}")
    }

    /// The sum of a histogram in seconds, of so many nanoseconds, and its count.
    pub(crate) fn end_histogram(
        &mut self,
        name: &str,
        nanos: u64,
        count: u64,
    ) -> Result<(), AllocError> {
        let (seconds, rest) = (nanos / 1_000_000_000, nanos % 1_000_000_000);
        writeln!(
            self.text,
            "{name}_sum {seconds}.{rest:09}\n{name}_count {count}"
        )
    }

    /// A counter without labels.
    pub fn counter(&mut self, name: &str, help: &str, value: u64) -> Result<(), AllocError> {
        self.begin(name, "counter", help)?;
        self.sample(name, value)
    }

    /// A gauge without labels.
    pub fn gauge(&mut self, name: &str, help: &str, value: u64) -> Result<(), AllocError> {
        self.begin(name, "gauge", help)?;
        self.sample(name, value)
    }

    /// Its text.
    pub fn as_str(&self) -> &str {
        self.text.as_str()
    }
}
